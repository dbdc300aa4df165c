//! What a talk of clerks is for the desks that they show.
ghost use Rattle.talk_command.specs.Desks.{SampleIsServed};

use sector_device::SectorDevice;

/// What `talk` writes is a talk of the sample desk: each command has the desk's step or leaves the desk as it is, and each query the
/// desk's answer.
pub fn desks_talk<D: SectorDevice>()
    ensures { SampleIsServed D.SectorDevice }
{}
