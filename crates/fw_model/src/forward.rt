//! Ports that are forwarded.
use super::Port;
use fw_addr::Addr;

/// A port whose packets go to another port, to another host, or both (firewalld.zone(5), `forward-port`).
#[derive(Clone, Copy, Debug, PartialEq, Eq)]
pub struct Forward {
    pub port: Port,
    /// The port that they go to. None: the packet's own.
    pub to_port: Option<u16>,
    /// The host that they go to. None: this host.
    pub to_addr: Option<Addr>,
}
