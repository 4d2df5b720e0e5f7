//! How a host and a console end: the status, and the text for standard error.
ghost use Rattle.std.specs.Prelude.{◌≡◌};
ghost use Rattle.command_console.specs.Endings.{console_status, host_status};

use host_node::End;
use outside_switch::HostsEnd;

/// How a host ends, by the reason for which its loop does.
pub fn ending_of_host(end: End) -> (u8, &'static str)
    ensures { result.0 ≡ host_status end }
{
    match end {
        End::Stopped => (0, "host: the pair has ended"),
        End::Closed => (0, "host: its stream has ended"),
        End::Lost => (0, "host: another host has won its generation"),
        End::Orphaned => (0, "host: the host that sent it the machine is gone"),
        End::OutOfMemory => (4, "host: out of memory"),
        End::Diverged => (7, "host: what came is not of its machine's run"),
    }
}

/// How a console ends, by the reason for which its loop does.
pub fn ending_of_console(end: HostsEnd) -> (u8, &'static str)
    ensures { result.0 ≡ console_status end }
{
    match end {
        HostsEnd::UserQuit | HostsEnd::Settled => (0, ""),
        HostsEnd::Silent => (
            8,
            "pair: the machine, which still runs, is cut off: for as long as --silence says it has printed nothing, written to no disk and read no other track than before",
        ),
        HostsEnd::Stopped => (5, ""),
        HostsEnd::NoHosts => (6, "no host is left that has the machine"),
    }
}
