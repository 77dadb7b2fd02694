// The commands: their names, and how many fields their lines have.
ghost use Rattle.std.specs.Prelude.{◌≡◌};
ghost use Rattle.test_vectors.specs.Commands.{Named, field_count};

use test_lines::field;

#[derive(Clone, Copy, Debug, PartialEq, Eq)]
pub enum Command {
    Check,
    Count,
    Members,
    Needs,
    Group,
    Total,
    Search,
    Shares,
    Level,
    Caps,
    ByArc,
    DeadEnds,
    CapSums,
    Margin,
    Classes,
    Next,
    Walk,
    Job,
    JobTwo,
    Write,
    ToTwo,
    ToOne,
    State,
    Events,
    Unknown,
}

// Their names, with a space between two.
const NAMES: &[u8] =
    b"check count members needs group total search shares level caps byarc deadends capsums margin \
    classes next walk job job2 write to2 to1 state events";

// The commands, in the order of their names.
const COMMANDS: [Command; 24] = [
    Command::Check,
    Command::Count,
    Command::Members,
    Command::Needs,
    Command::Group,
    Command::Total,
    Command::Search,
    Command::Shares,
    Command::Level,
    Command::Caps,
    Command::ByArc,
    Command::DeadEnds,
    Command::CapSums,
    Command::Margin,
    Command::Classes,
    Command::Next,
    Command::Walk,
    Command::Job,
    Command::JobTwo,
    Command::Write,
    Command::ToTwo,
    Command::ToOne,
    Command::State,
    Command::Events,
];

// A match on the name's bytes was tried: it left more than a hundred goals open.
pub fn named(name: &[u8]) -> Command
    ensures { Named name.now result }
{
    match field::find(NAMES, COMMANDS.len(), name) {
        Some(place) => COMMANDS[place],
        None => Command::Unknown,
    }
}

// How many fields a command's line has; none is right for an unknown command.
pub fn fields(c: Command) -> usize
    ensures { result ≡ field_count c }
{
    match c {
        Command::Check => 4,
        Command::Count => 4,
        Command::Members => 5,
        Command::Needs => 5,
        Command::Group => 5,
        Command::Total => 5,
        Command::Search => 5,
        Command::Shares => 3,
        Command::Level => 7,
        Command::Caps => 3,
        Command::ByArc => 5,
        Command::DeadEnds => 4,
        Command::CapSums => 6,
        Command::Margin => 6,
        Command::Classes => 6,
        Command::Next => 2,
        Command::Walk => 2,
        Command::Job => 3,
        Command::JobTwo => 3,
        Command::Write => 7,
        Command::ToTwo => 3,
        Command::ToOne => 3,
        Command::State => 5,
        Command::Events => 8,
        Command::Unknown => 0,
    }
}
