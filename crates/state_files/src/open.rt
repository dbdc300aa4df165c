//! Which file is opened by which name.
ghost use Rattle.std.specs.Prelude.{◌≡◌, ℕ, List, Result, is_some};
ghost use Rattle.std.specs.Option.{option_copied};
ghost use Rattle.state_files.specs.Opens.{OpensCensus, OpensCompanion, AreAlike, OpensAudit};
ghost use Rattle.state_files.specs.declared.fault.OpenFault.{OpenFault as NotOpened};

use crate::census::CensusFiles;
use crate::fault::OpenFault;
use crate::plan_file::Companion;
use desk_model::companions::Companions;

/// The names of a state's census files.
#[derive(Clone, Copy)]
pub struct CensusPaths<'a> {
    pub geo: &'a str,
    pub seg1: &'a str,
    pub seg2: &'a str,
    pub seg3: &'a str,
}

/// The names of an audit's files.
#[derive(Clone, Copy)]
pub struct AuditPaths<'a> {
    pub census: CensusPaths<'a>,
    pub gal: &'a str,
    pub plan: &'a str,
    /// The companion plans.
    pub beside: Companions<&'a str>,
}

/// The openings of all files of an audit.
#[derive(Drop)]
pub struct AuditFiles<R> {
    pub census: CensusFiles<R>,
    pub gal: Result<R, OpenFault>,
    pub plan: Result<R, OpenFault>,
    /// The senate plan, if one is given.
    pub senate: Option<Companion<R>>,
    pub congress: Option<Companion<R>>,
}

/// What opens files by their names.
pub trait Opener<R> {
    // A name was asked for, with this result, and that left the opener so.
    ghost opens: { Self → List ℕ → Result R NotOpened → Self → Type 0 };

    fn open(&mut self, name: &str) -> Result<R, OpenFault>
        ensures { opens self.old name.now result self.new };
}

/// Opens the geographic header and the segments, in that order.
pub fn open_census<R, O: Opener<R>>(opener: &mut O, paths: CensusPaths<'_>) -> CensusFiles<R>
    ensures { OpensCensus O.opens opener.old paths.entry result opener.new }
{
    let geo = opener.open(paths.geo);
    let seg1 = opener.open(paths.seg1);
    let seg2 = opener.open(paths.seg2);
    let seg3 = opener.open(paths.seg3);
    CensusFiles {
        geo,
        seg1,
        seg2,
        seg3,
    }
}

/// Opens a companion, where there is one.
fn open_companion<R, O: Opener<R>>(
    opener: &mut O,
    path: Option<&str>,
    districts: Option<u16>,
) -> Option<Companion<R>>
    requires { is_some path ≡ is_some districts }
    ensures { OpensCompanion O.opens opener.old (option_copied path.entry) districts result opener.new }
{
    let path = path?;
    let districts = districts?;
    let opened = opener.open(path);
    Some(Companion { opened, districts })
}

/// Opens the census files, the neighbour file, the plan, and then the senate plan and the
/// congressional plan, in that order. The numbers of districts of these two are given.
pub fn open_audit<R, O: Opener<R>>(
    opener: &mut O,
    paths: AuditPaths<'_>,
    districts: Companions<u16>,
) -> AuditFiles<R>
    requires { AreAlike paths.beside districts }
    ensures opened { OpensAudit O.opens opener.old paths.entry districts result opener.new }
    ensures senate { is_some result.senate ≡ is_some districts.senate }
    ensures congress { is_some result.congress ≡ is_some districts.congress }
{
    let census = open_census(opener, paths.census);
    let gal = opener.open(paths.gal);
    let plan = opener.open(paths.plan);
    let senate = open_companion(opener, paths.beside.senate, districts.senate);
    let congress = open_companion(opener, paths.beside.congress, districts.congress);
    AuditFiles {
        census,
        gal,
        plan,
        senate,
        congress,
    }
}
