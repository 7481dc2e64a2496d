//! IP addresses: the numbers that their octets spell. Socket addresses: an IP address, a port, and for IPv6 the flow
//! information and the scope.
ghost use Rattle.std.specs.Net.Socket.{v4_ip, v4_port, v6_flowinfo, v6_ip, v6_port, v6_scope_id};
ghost use Rattle.std.specs.Prelude.{[], refl, ◌∷◌};
ghost use Rattle.std.specs.declared.net.ip_addr.IpAddr.TheVariants as Ip;
ghost use Rattle.std.specs.declared.net.socket_addr.SocketAddr.TheVariants as Socket;
ghost use Rattle.bitcode_shapes.specs.Addresses.{ip_again, ip_family, ip_found, ipv4_data, ipv6_data};
ghost use Rattle.bitcode_shapes.specs.Addresses.{socket_again, socket_family, socket_found};
ghost use Rattle.bitcode_shapes.specs.DataOf.{data_as, key_as};
ghost use Rattle.bitcode_shapes.specs.FieldsInOrder.{ands_in_order, thens_in_order};

use crate::keys::Key;
use crate::shaped::Shaped;
use std::net::{IpAddr, Ipv4Addr, Ipv6Addr, SocketAddr, SocketAddrV4, SocketAddrV6};

impl Shaped for Ipv4Addr {
    ghost data = { ipv4_data };

    fn told(&self) {
        self.octets().told();
    }
}

impl Key for Ipv4Addr {
    ghost equal = { refl };

    ghost ordered = { refl };
}

impl Shaped for Ipv6Addr {
    ghost data = { ipv6_data };

    fn told(&self) {
        self.segments().told();
    }
}

impl Key for Ipv6Addr {
    ghost equal = { refl };

    ghost ordered = { refl };
}

impl Shaped for IpAddr {
    ghost data = { key_as
        (data_as ip_family ip_found ip_again ⟦<Result<Ipv4Addr, Ipv6Addr> as Shaped>⟧.data)
        ⟦<IpAddr as PartialEq>⟧.eq ⟦<IpAddr as Ord>⟧.cmp
        (elim [
          | Ip.V4 a ↦ elim [ Ip.V4 b ↦ refl | Ip.V6 b ↦ refl ]
          | Ip.V6 a ↦ elim [ Ip.V4 b ↦ refl | Ip.V6 b ↦ refl ]
        ])
        (elim [
          | Ip.V4 a ↦ elim [ Ip.V4 b ↦ refl | Ip.V6 b ↦ refl ]
          | Ip.V6 a ↦ elim [ Ip.V4 b ↦ refl | Ip.V6 b ↦ refl ]
        ]) };

    fn told(&self) {
        match self {
            IpAddr::V4(a) => a.told(),
            IpAddr::V6(a) => a.told(),
        }
    }
}

impl Key for IpAddr {
    ghost equal = { refl };

    ghost ordered = { refl };
}

impl Shaped for SocketAddrV4 {
    ghost data = { data_as (λ a. (v4_ip a, v4_port a))
        (λ p. (record { ip = p.0; port = p.1 }, refl)) (λ a. refl)
        ⟦<(Ipv4Addr, u16) as Shaped>⟧.data };

    fn told(&self) {
        self.ip().told();
        self.port().told();
    }
}

impl Key for SocketAddrV4 {
    ghost equal = { refl };

    ghost ordered = { refl };
}

impl Shaped for SocketAddrV6 {
    ghost data = { key_as
        (data_as (λ a. (v6_ip a, v6_port a, v6_flowinfo a, v6_scope_id a))
        (λ p. (record { ip = p.0; port = p.1; flowinfo = p.2; scope_id = p.3 }, refl)) (λ a. refl)
        ⟦<(Ipv6Addr, u16, u32, u32) as Shaped>⟧.data)
        ⟦<SocketAddrV6 as PartialEq>⟧.eq ⟦<SocketAddrV6 as Ord>⟧.cmp
        (λ a b. ands_in_order (⟦<Ipv6Addr as PartialEq>⟧.eq (v6_ip a) (v6_ip b))
        ((⟦<u16 as PartialEq>⟧.eq (v6_port a) (v6_port b))
        ∷ (⟦<u32 as PartialEq>⟧.eq (v6_flowinfo a) (v6_flowinfo b))
        ∷ (⟦<u32 as PartialEq>⟧.eq (v6_scope_id a) (v6_scope_id b)) ∷ []))
        (λ a b. thens_in_order (⟦<Ipv6Addr as Ord>⟧.cmp (v6_ip a) (v6_ip b))
        ((⟦<u16 as Ord>⟧.cmp (v6_port a) (v6_port b))
        ∷ (⟦<u32 as Ord>⟧.cmp (v6_flowinfo a) (v6_flowinfo b))
        ∷ (⟦<u32 as Ord>⟧.cmp (v6_scope_id a) (v6_scope_id b)) ∷ [])) };

    fn told(&self) {
        self.ip().told();
        self.port().told();
        self.flowinfo().told();
        self.scope_id().told();
    }
}

impl Key for SocketAddrV6 {
    ghost equal = { refl };

    ghost ordered = { refl };
}

impl Shaped for SocketAddr {
    ghost data = { key_as
        (data_as socket_family socket_found socket_again
        ⟦<Result<SocketAddrV4, SocketAddrV6> as Shaped>⟧.data)
        ⟦<SocketAddr as PartialEq>⟧.eq ⟦<SocketAddr as Ord>⟧.cmp
        (elim [
          | Socket.V4 a ↦ elim [ Socket.V4 b ↦ refl | Socket.V6 b ↦ refl ]
          | Socket.V6 a ↦ elim [ Socket.V4 b ↦ refl | Socket.V6 b ↦ refl ]
        ])
        (elim [
          | Socket.V4 a ↦ elim [ Socket.V4 b ↦ refl | Socket.V6 b ↦ refl ]
          | Socket.V6 a ↦ elim [ Socket.V4 b ↦ refl | Socket.V6 b ↦ refl ]
        ]) };

    fn told(&self) {
        match self {
            SocketAddr::V4(a) => a.told(),
            SocketAddr::V6(a) => a.told(),
        }
    }
}

impl Key for SocketAddr {
    ghost equal = { refl };

    ghost ordered = { refl };
}
