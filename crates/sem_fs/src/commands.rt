ghost use Rattle.sem_files.specs.Files.{Files};
ghost use Rattle.sem_files.specs.Compiled.{compiled, AreFiles};
ghost use Rattle.sem_fs.specs.Service.{IsService};
ghost use Rattle.sem_fs.specs.Laws.{OfFiles, commands_succeed, closed_are_gone};

/// The setup that file commands compile to is a file service.
pub fn commands_make_services()
    ensures service { (F : Files) → AreFiles F → IsService (compiled F) }
{}

/// In every schedule of the setup that file commands compile to, each reply is a success.
pub fn files_succeed()
    ensures succeed { OfFiles commands_succeed }
{}

/// In every schedule of the setup that file commands compile to, no key that descends from a key of
/// a closed opening is live or bound.
pub fn files_closed()
    ensures gone { OfFiles closed_are_gone }
{}
