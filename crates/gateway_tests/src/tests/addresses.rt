//! The addresses from which a downlink takes what comes.

use super::assertions::same;
use share_downlink::takes_address;
use std::net::{IpAddr, Ipv4Addr, Ipv6Addr, SocketAddr};

#[test]
fn an_address_is_that_of_a_host(rt: HostRuntime) {
    let here = Ipv4Addr::LOCALHOST;
    let only = Some(IpAddr::V4(here));
    let mapped = SocketAddr::from((here.to_ipv6_mapped(), 7));
    let other = SocketAddr::from((Ipv6Addr::LOCALHOST, 7));
    same(&rt, "any", takes_address(None, other), true);
    let same_host = SocketAddr::from((here, 7));
    same(&rt, "the same", takes_address(only, same_host), true);
    same(&rt, "mapped", takes_address(only, mapped), true);
    same(&rt, "another", takes_address(only, other), false);
}
