//! IP addresses, as the numbers that their octets spell, and socket addresses, as their parts. An address of either
//! family is written as a result, whose `Ok` is IPv4.
ghost use Rattle.std.specs.Prelude.{refl};

use crate::convert::{ConvertFrom, ConvertInto};
use bitcode_memory::error::Error;
use std::alloc::Global;
use std::net::{IpAddr, Ipv4Addr, Ipv6Addr, SocketAddr, SocketAddrV4, SocketAddrV6};

/// What an `IpAddr` is written as and made from.
pub type IpAddrConversion = Result<Ipv4Addr, Ipv6Addr>;

/// What a `SocketAddrV4` is written as and made from: the address and the port.
pub type SocketAddrV4Conversion = (Ipv4Addr, u16);

/// What a `SocketAddrV6` is written as and made from: the address, the port, the flow information and the scope.
pub type SocketAddrV6Conversion = (Ipv6Addr, u16, u32, u32);

/// What a `SocketAddr` is written as and made from.
pub type SocketAddrConversion = Result<SocketAddrV4, SocketAddrV6>;

impl ConvertInto<u32> for Ipv4Addr {
    fn convert_into(&self) -> u32 {
        self.to_bits()
    }

    ghost written_as = { record { columns = λ ds. refl; data_of = λ d of. of } };
}

impl ConvertFrom<u32> for Ipv4Addr {
    fn convert_from(_alloc: Global, value: u32) -> Result<Self, Error> {
        Ok(Ipv4Addr::from_bits(value))
    }

    ghost same_shape = { refl };
}

impl ConvertInto<u128> for Ipv6Addr {
    fn convert_into(&self) -> u128 {
        self.to_bits()
    }

    ghost written_as = { record { columns = λ ds. refl; data_of = λ d of. of } };
}

impl ConvertFrom<u128> for Ipv6Addr {
    fn convert_from(_alloc: Global, value: u128) -> Result<Self, Error> {
        Ok(Ipv6Addr::from_bits(value))
    }

    ghost same_shape = { refl };
}

impl ConvertInto<IpAddrConversion> for IpAddr {
    fn convert_into(&self) -> IpAddrConversion {
        match self {
            IpAddr::V4(ip) => Ok(*ip),
            IpAddr::V6(ip) => Err(*ip),
        }
    }

    ghost written_as = { record { columns = λ ds. refl; data_of = λ d of. of } };
}

impl ConvertFrom<IpAddrConversion> for IpAddr {
    fn convert_from(_alloc: Global, value: IpAddrConversion) -> Result<Self, Error> {
        match value {
            Ok(ip) => Ok(IpAddr::V4(ip)),
            Err(ip) => Ok(IpAddr::V6(ip)),
        }
    }

    ghost same_shape = { refl };
}

impl ConvertInto<SocketAddrV4Conversion> for SocketAddrV4 {
    fn convert_into(&self) -> SocketAddrV4Conversion {
        (*self.ip(), self.port())
    }

    ghost written_as = { record { columns = λ ds. refl; data_of = λ d of. of } };
}

impl ConvertFrom<SocketAddrV4Conversion> for SocketAddrV4 {
    fn convert_from(_alloc: Global, value: SocketAddrV4Conversion) -> Result<Self, Error> {
        let (ip, port) = value;
        Ok(SocketAddrV4::new(ip, port))
    }

    ghost same_shape = { refl };
}

impl ConvertInto<SocketAddrV6Conversion> for SocketAddrV6 {
    fn convert_into(&self) -> SocketAddrV6Conversion {
        (*self.ip(), self.port(), self.flowinfo(), self.scope_id())
    }

    ghost written_as = { record { columns = λ ds. refl; data_of = λ d of. of } };
}

impl ConvertFrom<SocketAddrV6Conversion> for SocketAddrV6 {
    fn convert_from(_alloc: Global, value: SocketAddrV6Conversion) -> Result<Self, Error> {
        let (ip, port, flowinfo, scope_id) = value;
        Ok(SocketAddrV6::new(ip, port, flowinfo, scope_id))
    }

    ghost same_shape = { refl };
}

impl ConvertInto<SocketAddrConversion> for SocketAddr {
    fn convert_into(&self) -> SocketAddrConversion {
        match self {
            SocketAddr::V4(address) => Ok(*address),
            SocketAddr::V6(address) => Err(*address),
        }
    }

    ghost written_as = { record { columns = λ ds. refl; data_of = λ d of. of } };
}

impl ConvertFrom<SocketAddrConversion> for SocketAddr {
    fn convert_from(_alloc: Global, value: SocketAddrConversion) -> Result<Self, Error> {
        match value {
            Ok(address) => Ok(SocketAddr::V4(address)),
            Err(address) => Ok(SocketAddr::V6(address)),
        }
    }

    ghost same_shape = { refl };
}
