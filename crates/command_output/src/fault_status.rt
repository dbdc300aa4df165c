//! The exit status of a fault.
ghost use Rattle.std.specs.Prelude.{◌≡◌};
ghost use Rattle.command_output.specs.claim.Faults.{status_of_open, status_of_geo, status_of_segment};
ghost use Rattle.command_output.specs.claim.Faults.{status_of_join, status_of_gal, status_of_plan, status_of_fault};

use crate::status::Status;
use state_files::fault::{FileFault, OpenFault, PlanFault};
use state_files::{GalFault, GeoFault, JoinFault, SegFault};

fn open_status(fault: OpenFault) -> Status
    ensures { result ≡ status_of_open fault }
{
    match fault {
        OpenFault::Unreadable => Status::Refused,
        OpenFault::Memory => Status::Memory,
    }
}

fn header_status(fault: GeoFault) -> Status
    ensures { result ≡ status_of_geo fault }
{
    match fault {
        GeoFault::Memory => Status::Memory,
        _ => Status::Refused,
    }
}

fn segment_status(fault: SegFault) -> Status
    ensures { result ≡ status_of_segment fault }
{
    match fault {
        SegFault::Memory => Status::Memory,
        _ => Status::Refused,
    }
}

fn join_status(fault: JoinFault) -> Status
    ensures { result ≡ status_of_join fault }
{
    match fault {
        JoinFault::Memory => Status::Memory,
        _ => Status::Refused,
    }
}

fn gal_status(fault: GalFault) -> Status
    ensures { result ≡ status_of_gal fault }
{
    match fault {
        GalFault::Memory => Status::Memory,
        _ => Status::Refused,
    }
}

fn plan_status(fault: PlanFault) -> Status
    ensures { result ≡ status_of_plan fault }
{
    match fault {
        PlanFault::Memory => Status::Memory,
        _ => Status::Refused,
    }
}

/// 5 where memory was refused, and 3 for all else.
pub fn fault_status(fault: &FileFault) -> Status
    ensures { result ≡ status_of_fault fault.now }
{
    match *fault {
        FileFault::NoHeader(fault) => open_status(fault),
        FileFault::Header(fault) => header_status(fault),
        FileFault::NoSegment(_, fault) => open_status(fault),
        FileFault::Segment(_, fault) => segment_status(fault),
        FileFault::Join(fault) => join_status(fault),
        FileFault::NoGal(fault) => open_status(fault),
        FileFault::Gal(fault) => gal_status(fault),
        FileFault::Plan(_, fault) => plan_status(fault),
    }
}
