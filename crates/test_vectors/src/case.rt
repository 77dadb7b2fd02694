// One case: a command, a tree, and for some commands up to three fields more; or a tree with costs in classes; or
// parents, costs and a length; or parents alone; or a number of members and a list with an entry each; or a job, and
// for some commands a length; or the note and the lists of a job and a length; or a state and steps.
// The functions that read fields answer nothing where a field is not what the command takes; then nothing is printed.
use crate::command::Command;
use crate::output::with_output;
use crate::read::{Tree, entries};
use crate::{
    class_case, command, convert_case, event_case, job_case, job2_case, level_case, next_case,
    print, state_case, write_case,
};
use std::io::{Result, Write};
use test_lines::list::MOST;
use test_lines::{field, list, number};

// The words of a group.
const WORDS: usize = 16;

fn members<W: Write>(writer: &mut W, line: &[u8], tree: &Tree) -> Option<Result<()>> {
    with_output(writer, line, 4, &mut [9u16; MOST], |writer, out| {
        let answer = engine::list_members(tree.parents, tree.costs, tree.marks, out);
        print::member_count(writer, answer)
    })
}

fn needs<W: Write>(writer: &mut W, line: &[u8], tree: &Tree) -> Option<Result<()>> {
    with_output(writer, line, 4, &mut [9u64; MOST], |writer, out| {
        let answer = engine::list_needs(tree.parents, tree.costs, tree.marks, out);
        print::needs_found(writer, answer)
    })
}

fn by_arc<W: Write>(writer: &mut W, line: &[u8], tree: &Tree) -> Option<Result<()>> {
    with_output(writer, line, 4, &mut [9u64; MOST], |writer, out| {
        let answer = engine::split_by_arc(tree.parents, tree.costs, tree.marks, out);
        print::member_count(writer, answer)
    })
}

// Field 4 has the caps.
fn cap_sums<W: Write>(writer: &mut W, line: &[u8], tree: &Tree) -> Option<Result<()>> {
    let mut caps = [0u64; MOST];
    let caps = entries(line, 4, number::unsigned, &mut caps)?;
    with_output(writer, line, 5, &mut [9u64; MOST], |writer, out| {
        let answer = engine::list_cap_sums(tree.parents, tree.costs, tree.marks, caps, out);
        print::number(writer, "total", answer)
    })
}

// Field 4 has the arc, any number of 64 bits.
fn margin<W: Write>(writer: &mut W, line: &[u8], tree: &Tree) -> Option<Result<()>> {
    let arc = number::unsigned(field::nth(line, 4))?;
    with_output(writer, line, 5, &mut [9u64; MOST], |writer, out| {
        let answer = engine::split_margin(tree.parents, tree.costs, tree.marks, arc, out);
        print::margin_split(writer, answer)
    })
}

// Field 4 has the group's words.
fn group<W: Write>(writer: &mut W, line: &[u8], tree: &Tree) -> Option<Result<()>> {
    let mut words = [0u64; WORDS];
    if list::read(field::nth(line, 4), number::unsigned, &mut words)? != WORDS {
        return None;
    }
    let answer = engine::group_cost(tree.parents, tree.costs, tree.marks, words);
    Some(print::group_cost(writer, answer))
}

// Field 4 has the proposal.
fn with_proposal<F: FnOnce(&[i64]) -> Result<()>>(line: &[u8], run: F) -> Option<Result<()>>
    requires { F.IsAlwaysCallable run }
{
    let mut proposal = [0i64; MOST];
    Some(run(entries(line, 4, number::signed, &mut proposal)?))
}

fn total<W: Write>(writer: &mut W, line: &[u8], tree: &Tree) -> Option<Result<()>> {
    with_proposal(line, |proposal| {
        let answer = engine::check_total(tree.parents, tree.costs, tree.marks, proposal);
        print::number(writer, "total", answer)
    })
}

fn search<W: Write>(writer: &mut W, line: &[u8], tree: &Tree) -> Option<Result<()>> {
    with_proposal(line, |proposal| {
        let found = engine::find_group(tree.parents, tree.costs, tree.marks, proposal);
        print::searched(writer, found)
    })
}

fn on_tree<W: Write>(writer: &mut W, c: Command, line: &[u8], tree: &Tree) -> Option<Result<()>> {
    let Tree {
        parents,
        costs,
        marks,
    } = *tree;
    match c {
        Command::Check => Some(print::checked(writer, engine::check_tree(parents, costs, marks))),
        Command::Count => Some(print::member_count(
            writer,
            engine::count_members(parents, costs, marks),
        )),
        Command::Members => members(writer, line, tree),
        Command::Needs => needs(writer, line, tree),
        Command::Group => group(writer, line, tree),
        Command::Total => total(writer, line, tree),
        Command::Search => search(writer, line, tree),
        Command::Level => level_case::run(writer, line, tree),
        Command::ByArc => by_arc(writer, line, tree),
        Command::CapSums => cap_sums(writer, line, tree),
        Command::Margin => margin(writer, line, tree),
        Command::State => state_case::run(writer, line, tree),
        _ => None,
    }
}

// Field 1 has the parents, field 2 the costs, field 3 the marks.
fn with_tree<W: Write>(writer: &mut W, c: Command, line: &[u8]) -> Option<Result<()>> {
    let mut parents = [0u16; MOST];
    let mut costs = [0u32; MOST];
    let mut marks = [0u16; MOST];
    let tree = Tree {
        parents: entries(line, 1, number::unsigned, &mut parents)?,
        costs: entries(line, 2, number::unsigned, &mut costs)?,
        marks: entries(line, 3, number::unsigned, &mut marks)?,
    };
    on_tree(writer, c, line, &tree)
}

// Field 1 has the parents, field 2 the costs; there are no marks.
fn dead_ends<W: Write>(writer: &mut W, line: &[u8]) -> Option<Result<()>> {
    let mut parents = [0u16; MOST];
    let mut costs = [0u32; MOST];
    let parents = entries(line, 1, number::unsigned, &mut parents)?;
    let costs = entries(line, 2, number::unsigned, &mut costs)?;
    with_output(writer, line, 3, &mut [9u16; MOST], |writer, out| {
        print::member_count(writer, engine::mark_dead_ends(parents, costs, out))
    })
}

// Field 1 is the number of members.
fn shares<W: Write>(writer: &mut W, line: &[u8]) -> Option<Result<()>> {
    let members = number::up_to(field::nth(line, 1), MOST)?;
    let mut proposal = [0i64; MOST];
    let proposal = entries(line, 2, number::signed, &mut proposal)?;
    Some(print::checked(writer, engine::check_proposal(members, proposal)))
}

// As shares.
fn caps<W: Write>(writer: &mut W, line: &[u8]) -> Option<Result<()>> {
    let members = number::up_to(field::nth(line, 1), MOST)?;
    let mut caps = [0u64; MOST];
    let caps = entries(line, 2, number::unsigned, &mut caps)?;
    Some(print::checked(writer, engine::check_caps(members, caps)))
}

fn answer<W: Write>(writer: &mut W, line: &[u8]) -> Option<Result<()>> {
    let c = command::named(field::nth(line, 0));
    if field::has(line, command::fields(c)) {
        return None;
    }
    match c {
        Command::Shares => shares(writer, line),
        Command::Caps => caps(writer, line),
        Command::DeadEnds => dead_ends(writer, line),
        Command::Classes => class_case::run(writer, line),
        Command::Next => next_case::run(line, |list| next_case::step(writer, list)),
        Command::Walk => next_case::run(line, |list| next_case::walk(writer, list)),
        Command::Job => job_case::run(writer, line),
        Command::JobTwo => job2_case::run(writer, line),
        Command::Write => write_case::run(writer, line),
        // A re-exported function of another crate, passed by its name, did not check: hence a closure around it.
        Command::ToTwo => {
            convert_case::run(writer, line, |bytes, out| job2::job_to_2(bytes, out))
        },
        Command::ToOne => {
            convert_case::run(writer, line, |bytes, out| job2::job_to_1(bytes, out))
        },
        Command::Events => event_case::run(writer, line),
        _ => with_tree(writer, c, line),
    }
}

pub fn run<W: Write>(writer: &mut W, line: &[u8]) -> Result<()> {
    match answer(writer, line) {
        Some(printed) => printed?,
        None => write!(writer, "bad case")?,
    }
    writeln!(writer)
}
