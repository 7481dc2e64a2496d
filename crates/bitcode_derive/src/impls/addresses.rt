//! The coders of IP and socket addresses.
use crate::derive::{DecodeOwned, HasDecoder, HasEncoder};
use bitcode_parts::addresses::{
    IpAddrConversion, SocketAddrConversion, SocketAddrV4Conversion, SocketAddrV6Conversion,
};
use bitcode_parts::convert::{ConvertFromDecoder, ConvertIntoEncoder};
use std::net::{IpAddr, Ipv4Addr, Ipv6Addr, SocketAddr, SocketAddrV4, SocketAddrV6};

impl HasEncoder for Ipv4Addr {
    type Encoder = ConvertIntoEncoder<u32, <u32 as HasEncoder>::Encoder>;
}

impl<'a> HasDecoder<'a> for Ipv4Addr {
    type Decoder = ConvertFromDecoder<u32, <u32 as HasDecoder<'a>>::Decoder>;
}

impl DecodeOwned for Ipv4Addr {}

impl HasEncoder for Ipv6Addr {
    type Encoder = ConvertIntoEncoder<u128, <u128 as HasEncoder>::Encoder>;
}

impl<'a> HasDecoder<'a> for Ipv6Addr {
    type Decoder = ConvertFromDecoder<u128, <u128 as HasDecoder<'a>>::Decoder>;
}

impl DecodeOwned for Ipv6Addr {}

impl HasEncoder for IpAddr {
    type Encoder = ConvertIntoEncoder<IpAddrConversion, <IpAddrConversion as HasEncoder>::Encoder>;
}

impl<'a> HasDecoder<'a> for IpAddr {
    type Decoder = ConvertFromDecoder<
        IpAddrConversion,
        <IpAddrConversion as HasDecoder<'a>>::Decoder,
    >;
}

impl DecodeOwned for IpAddr {}

impl HasEncoder for SocketAddrV4 {
    type Encoder = ConvertIntoEncoder<
        SocketAddrV4Conversion,
        <SocketAddrV4Conversion as HasEncoder>::Encoder,
    >;
}

impl<'a> HasDecoder<'a> for SocketAddrV4 {
    type Decoder = ConvertFromDecoder<
        SocketAddrV4Conversion,
        <SocketAddrV4Conversion as HasDecoder<'a>>::Decoder,
    >;
}

impl DecodeOwned for SocketAddrV4 {}

impl HasEncoder for SocketAddrV6 {
    type Encoder = ConvertIntoEncoder<
        SocketAddrV6Conversion,
        <SocketAddrV6Conversion as HasEncoder>::Encoder,
    >;
}

impl<'a> HasDecoder<'a> for SocketAddrV6 {
    type Decoder = ConvertFromDecoder<
        SocketAddrV6Conversion,
        <SocketAddrV6Conversion as HasDecoder<'a>>::Decoder,
    >;
}

impl DecodeOwned for SocketAddrV6 {}

impl HasEncoder for SocketAddr {
    type Encoder = ConvertIntoEncoder<
        SocketAddrConversion,
        <SocketAddrConversion as HasEncoder>::Encoder,
    >;
}

impl<'a> HasDecoder<'a> for SocketAddr {
    type Decoder = ConvertFromDecoder<
        SocketAddrConversion,
        <SocketAddrConversion as HasDecoder<'a>>::Decoder,
    >;
}

impl DecodeOwned for SocketAddr {}
