// Events: their vertex and mark, and how they change the number of members.
ghost use Rattle.std.specs.Prelude.{◌≡◌, ◌<◌, ◌≤◌, length};
ghost use Rattle.limits.specs.Limits.{most_arcs};
ghost use Rattle.game.specs.Tree.{of_arc};
ghost use Rattle.answer_forms.specs.Answer.{fault, ◌then◌};
ghost use Rattle.answer_forms.specs.Checked.{check_of};
ghost use Rattle.answers.specs.Events.{marked_so, vertex_check};
ghost use Rattle.answers.specs.EventLaws.{members_after};
ghost use Rattle.events.specs.Outcomes.{change_of};

use answer_forms::{Reason, Refusal};

#[derive(Clone, Copy, Debug, PartialEq, Eq)]
pub enum Change {
    Arrive,
    Leave,
    NewCost(u32),
}

impl Change {
    // Whether a vertex with this mark is as the change would leave it.
    fn is_marked_so(self, mark: u16) -> bool
        ensures { result ≡ marked_so mark (change_of self) }
    {
        match self {
            Change::Arrive => mark == 1,
            Change::Leave => mark == 0,
            Change::NewCost(_) => false,
        }
    }

    // The number of members after the change.
    pub(crate) fn members_after(self, members: usize) -> usize
        requires members_le_most_arcs { members ≤ most_arcs }
        requires members_nonzero { 0 < members }
        ensures { result ≡ members_after members (change_of self) }
    {
        match self {
            Change::Arrive => members + 1,
            Change::Leave => members - 1,
            Change::NewCost(_) => members,
        }
    }
}

// A vertex, and the change there.
#[derive(Clone, Copy, Debug, PartialEq, Eq)]
pub struct Event {
    pub vertex: usize,
    pub change: Change,
}

impl Event {
    // 21, then 22, on a tree with these marks.
    pub(crate) fn check(self, marks: &[u16]) -> Result<(), Refusal>
        ensures { check_of result
            ≡ (vertex_check (length marks.now) self.vertex
            then fault (marked_so (of_arc marks.now self.vertex) (change_of self.change)) 22 self.vertex) }
    {
        if self.vertex == 0 || marks.len() < self.vertex {
            return Err(Reason::EventVertex.at(self.vertex));
        }
        if self.change.is_marked_so(marks[self.vertex - 1]) {
            return Err(Reason::EventMark.at(self.vertex));
        }
        Ok(())
    }
}
