//! IP addresses, as the arrays of their octets, and socket addresses, as pairs of an IP address and a port.
#![tactic(auto)]

ghost use Rattle.std.specs.Net.Addr.{ipv4_octets, ipv6_octets};
ghost use Rattle.std.specs.Net.Socket.{v4_ip, v4_port, v6_ip, v6_port};
ghost use Rattle.bitcode_shapes.specs.Addresses.{ip_family, socket_family};

use crate::deserialize_as::DeserializeAs;
use crate::entering::read_at;
use crate::fields::write_tuple;
use crate::has_shape::HasShape;
use crate::serialize_as::SerializeAs;
use crate::variants::write_variant;
use bitcode_memory::error::Error;
use bitcode_serde::budget::Budget;
use bitcode_serde::reader::Reader;
use bitcode_serde::writer::Writer;
use bitcode_shapes::shaped::Shaped;
use std::alloc::Global;
use std::net::{IpAddr, Ipv4Addr, Ipv6Addr, SocketAddr, SocketAddrV4, SocketAddrV6};

impl HasShape for Ipv4Addr {
    ghost tree = { ⟦<[u8; 4] as HasShape>⟧.tree };

    ghost datum = { λ a. ⟦<[u8; 4] as HasShape>⟧.datum (ipv4_octets a) };

    ghost sound = { ⟦<[u8; 4] as HasShape>⟧.sound };
}

impl SerializeAs for Ipv4Addr {
    fn write(&self, writer: &mut Writer, left: usize, place: usize) -> Result<(), Error> {
        self.octets().write(writer, left, place)
    }
}

impl<'a> DeserializeAs<'a> for Ipv4Addr {
    fn is_free() -> bool {
        false
    }

    fn read(
        alloc: Global,
        reader: &mut Reader<'a>,
        budget: &mut Budget,
        left: usize,
        place: usize,
    ) -> Result<Ipv4Addr, Error> {
        let octets: [u8; 4] = read_at(alloc, reader, budget, left, place)?;
        Ok(Ipv4Addr::from_octets(octets))
    }
}

impl HasShape for Ipv6Addr {
    ghost tree = { ⟦<[u8; 16] as HasShape>⟧.tree };

    ghost datum = { λ a. ⟦<[u8; 16] as HasShape>⟧.datum (ipv6_octets a) };

    ghost sound = { ⟦<[u8; 16] as HasShape>⟧.sound };
}

impl SerializeAs for Ipv6Addr {
    fn write(&self, writer: &mut Writer, left: usize, place: usize) -> Result<(), Error> {
        self.octets().write(writer, left, place)
    }
}

impl<'a> DeserializeAs<'a> for Ipv6Addr {
    fn is_free() -> bool {
        false
    }

    fn read(
        alloc: Global,
        reader: &mut Reader<'a>,
        budget: &mut Budget,
        left: usize,
        place: usize,
    ) -> Result<Ipv6Addr, Error> {
        let octets: [u8; 16] = read_at(alloc, reader, budget, left, place)?;
        octets.told();
        Ok(Ipv6Addr::from_octets(octets))
    }
}

impl HasShape for IpAddr {
    ghost tree = { ⟦<Result<Ipv4Addr, Ipv6Addr> as HasShape>⟧.tree };

    ghost datum = { λ a. ⟦<Result<Ipv4Addr, Ipv6Addr> as HasShape>⟧.datum (ip_family a) };

    ghost sound = { ⟦<Result<Ipv4Addr, Ipv6Addr> as HasShape>⟧.sound };
}

impl SerializeAs for IpAddr {
    fn write(&self, writer: &mut Writer, left: usize, place: usize) -> Result<(), Error> {
        match self {
            IpAddr::V4(address) => write_variant(address, 0, writer, left, place),
            IpAddr::V6(address) => write_variant(address, 1, writer, left, place),
        }
    }
}

impl<'a> DeserializeAs<'a> for IpAddr {
    fn is_free() -> bool {
        false
    }

    fn read(
        alloc: Global,
        reader: &mut Reader<'a>,
        budget: &mut Budget,
        left: usize,
        place: usize,
    ) -> Result<IpAddr, Error> {
        let family: Result<Ipv4Addr, Ipv6Addr> = read_at(alloc, reader, budget, left, place)?;
        match family {
            Ok(address) => Ok(IpAddr::V4(address)),
            Err(address) => Ok(IpAddr::V6(address)),
        }
    }
}

impl HasShape for SocketAddrV4 {
    ghost tree = { ⟦<(Ipv4Addr, u16) as HasShape>⟧.tree };

    ghost datum = { λ a. ⟦<(Ipv4Addr, u16) as HasShape>⟧.datum (v4_ip a, v4_port a) };

    ghost sound = { ⟦<(Ipv4Addr, u16) as HasShape>⟧.sound };
}

impl SerializeAs for SocketAddrV4 {
    fn write(&self, writer: &mut Writer, left: usize, place: usize) -> Result<(), Error> {
        write_tuple(&(self.ip(), (&self.port(), ())), 2, writer, left, place)
    }
}

impl<'a> DeserializeAs<'a> for SocketAddrV4 {
    fn is_free() -> bool {
        false
    }

    fn read(
        alloc: Global,
        reader: &mut Reader<'a>,
        budget: &mut Budget,
        left: usize,
        place: usize,
    ) -> Result<SocketAddrV4, Error> {
        let parts: (Ipv4Addr, u16) = read_at(alloc, reader, budget, left, place)?;
        let (ip, port) = parts;
        Ok(SocketAddrV4::new(ip, port))
    }
}

// The flow information and the scope are not written, and are 0 in what is read.
impl HasShape for SocketAddrV6 {
    ghost tree = { ⟦<(Ipv6Addr, u16) as HasShape>⟧.tree };

    ghost datum = { λ a. ⟦<(Ipv6Addr, u16) as HasShape>⟧.datum (v6_ip a, v6_port a) };

    ghost sound = { ⟦<(Ipv6Addr, u16) as HasShape>⟧.sound };
}

impl SerializeAs for SocketAddrV6 {
    fn write(&self, writer: &mut Writer, left: usize, place: usize) -> Result<(), Error> {
        write_tuple(&(self.ip(), (&self.port(), ())), 2, writer, left, place)
    }
}

impl<'a> DeserializeAs<'a> for SocketAddrV6 {
    fn is_free() -> bool {
        false
    }

    fn read(
        alloc: Global,
        reader: &mut Reader<'a>,
        budget: &mut Budget,
        left: usize,
        place: usize,
    ) -> Result<SocketAddrV6, Error> {
        let parts: (Ipv6Addr, u16) = read_at(alloc, reader, budget, left, place)?;
        let (ip, port) = parts;
        Ok(SocketAddrV6::new(ip, port, 0, 0))
    }
}

impl HasShape for SocketAddr {
    ghost tree = { ⟦<Result<SocketAddrV4, SocketAddrV6> as HasShape>⟧.tree };

    ghost datum = { λ a. ⟦<Result<SocketAddrV4, SocketAddrV6> as HasShape>⟧.datum
        (socket_family a) };

    ghost sound = { ⟦<Result<SocketAddrV4, SocketAddrV6> as HasShape>⟧.sound };
}

impl SerializeAs for SocketAddr {
    fn write(&self, writer: &mut Writer, left: usize, place: usize) -> Result<(), Error> {
        match self {
            SocketAddr::V4(address) => write_variant(address, 0, writer, left, place),
            SocketAddr::V6(address) => write_variant(address, 1, writer, left, place),
        }
    }
}

impl<'a> DeserializeAs<'a> for SocketAddr {
    fn is_free() -> bool {
        false
    }

    fn read(
        alloc: Global,
        reader: &mut Reader<'a>,
        budget: &mut Budget,
        left: usize,
        place: usize,
    ) -> Result<SocketAddr, Error> {
        let family: Result<SocketAddrV4, SocketAddrV6> = read_at(
            alloc, reader, budget, left, place,
        )?;
        match family {
            Ok(address) => Ok(SocketAddr::V4(address)),
            Err(address) => Ok(SocketAddr::V6(address)),
        }
    }
}
