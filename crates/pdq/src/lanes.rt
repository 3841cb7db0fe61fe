// The lanes of the program.
ghost use Rattle.std.specs.Prelude.{◌≡◌, length, IfOk};
ghost use Rattle.pdq.specs.Lanes.{IsLane, AreLanes};

use crate::any_source::AnySource;
use csv_sources::CsvFolder;
use lists::{NoMemory, Text};
use source_trait::{Kind, Lane, Source};
use std::alloc::Global;
use system_io::{RealFiles, System};
use world_source::WorldSource;

/// A folder of data files of the system.
pub(crate) type Folder = CsvFolder<RealFiles<System<HostRuntime>>>;

/// How many lanes there are, and so the most workers. A lane that is not used opens no file.
const LANES: usize = 8;

/// One folder for each lane.
pub(crate) fn folders(alloc: Global, rt: HostRuntime) -> Result<Vec<Folder>, NoMemory>
    ensures { IfOk result (λ folders. length folders.items ≡ 8) }
{
    let mut folders = Vec::new(alloc);
    for _ in 0..LANES {
        folders.push(CsvFolder::new(alloc, RealFiles::new(System::new(rt))))?;
    }
    Ok(folders)
}

/// A lane for each of these folders, which stands under the kind `csv`, beside a new generator.
pub(crate) fn lanes_over<A: Source + Drop>(
    alloc: Global,
    folders: Vec<A>,
) -> Result<Vec<Lane<AnySource<A, WorldSource>>>, NoMemory>
    ensures as_many { IfOk result (λ lanes. length lanes.items ≡ length folders.items) }
    ensures lanes { IfOk result (λ lanes. AreLanes ⟦<AnySource<A, WorldSource> as Source>⟧.seen lanes.items) }
{
    let mut lanes = Vec::new(alloc);
    for folder in folders {
        lanes.push(lane_of(alloc, folder)?)?;
    }
    Ok(lanes)
}

/// A lane with the folder under the kind `csv`, and a new generator under the kind `world`.
fn lane_of<A: Source + Drop>(
    alloc: Global,
    folder: A,
) -> Result<Lane<AnySource<A, WorldSource>>, NoMemory>
    ensures { IfOk result (λ lane. IsLane ⟦<AnySource<A, WorldSource> as Source>⟧.seen lane.kinds.items) }
{
    let mut kinds = Vec::new(alloc);
    kinds.push(Kind {
        name: Text::from_str(alloc, "csv")?,
        object: AnySource::Folder(folder),
    })?;
    kinds.push(Kind {
        name: Text::from_str(alloc, "world")?,
        object: AnySource::Generator(WorldSource::new(alloc)),
    })?;
    Ok(Lane::new(kinds))
}
