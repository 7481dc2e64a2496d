//! `Peer` in the second format. What is below the declarations was written by `scripts/second_format`.

use bitcode_serde_types::written::{
    Budget, DeserializeAs, DeserializeFields, Error, HasShape, Reader, SerializeAs, Writer,
    read_tuple, write_tuple,
};
use std::alloc::Global;
use std::boxed::BoxedSlice;
use std::collections::VecDeque;
use std::net::{IpAddr, SocketAddrV4};
use std::num::NonZeroU16;
use std::rc::RcStr;
use std::time::Duration;

/// A host, as a server knows it.
#[derive(Drop)]
pub struct Peer {
    pub address: IpAddr,
    pub listens: SocketAddrV4,
    pub key: [u8; 4],
    pub waiting: VecDeque<u16>,
    pub names: BoxedSlice<String>,
    pub domain: RcStr,
    pub weight: NonZeroU16,
    pub seen: Duration,
}

impl HasShape for Peer {
    ghost use Rattle.bitcode_recursive_types.specs.PeerShape.{peer_tree, peer_datum, peer_sound};

    ghost tree = { peer_tree };

    ghost datum = { peer_datum };

    ghost sound = { peer_sound };
}

impl SerializeAs for Peer {
    fn write(&self, writer: &mut Writer, left: usize, place: usize) -> Result<(), Error> {
        let fields = (
            &self.address,
            (
                &self.listens,
                (
                    &self.key,
                    (
                        &self.waiting,
                        (
                            &self.names,
                            (&self.domain, (&self.weight, (&self.seen, ()))),
                        ),
                    ),
                ),
            ),
        );
        write_tuple(&fields, 8, writer, left, place)
    }
}

impl<'a> DeserializeAs<'a> for Peer {
    fn is_free() -> bool {
        <(
            IpAddr,
            (
                SocketAddrV4,
                (
                    [u8; 4],
                    (
                        VecDeque<u16>,
                        (BoxedSlice<String>, (RcStr, (NonZeroU16, (Duration, ())))),
                    ),
                ),
            ),
        ) as DeserializeFields<'a>>::are_free()
    }

    fn read(
        alloc: Global,
        reader: &mut Reader<'a>,
        budget: &mut Budget,
        left: usize,
        place: usize,
    ) -> Result<Peer, Error> {
        let fields: (
            IpAddr,
            (
                SocketAddrV4,
                (
                    [u8; 4],
                    (
                        VecDeque<u16>,
                        (BoxedSlice<String>, (RcStr, (NonZeroU16, (Duration, ())))),
                    ),
                ),
            ),
        ) = read_tuple(alloc, reader, budget, left, place, 8)?;
        let (address, (listens, (key, (waiting, (names, (domain, (weight, (seen, _end)))))))) =
            fields;
        Ok(Peer {
            address,
            listens,
            key,
            waiting,
            names,
            domain,
            weight,
            seen,
        })
    }
}
