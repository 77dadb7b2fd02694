// Why something is refused. The numbers are those of the specification; what each says is also in docs/SPECIFICATION.md §7
// and in include/zilqodur.h.
ghost use Rattle.std.specs.Prelude.{◌≡◌};
ghost use Rattle.answer_forms.specs.Reasons.{number_of};

use crate::Refusal;

#[derive(Clone, Copy, Debug, PartialEq, Eq)]
pub enum Reason {
    // The parent list has no entry, or more than 1,023.
    ArcCount = 1,
    // The cost list or the mark list does not have the length that goes with the parent list.
    TreeLengths = 2,
    // A parent is not below its arc's number.
    Parent = 3,
    // A cost, or what an arc's costs add up to over the classes, is above 1,000,000,000.
    Cost = 4,
    // The group has a bit at or beyond the number of members.
    GroupBit = 5,
    // The caps, the floors or the proposal do not have one entry a member.
    ListLength = 6,
    // A cap, a floor or a proposed share is outside its range.
    ListRange = 7,
    // The output list is not exactly as long as what is written.
    OutputLength = 8,
    // The caps of an arc's users add up to less than its adjusted need.
    CapsShort = 9,
    // A list for the job's values has fewer than 1,023 entries.
    JobRoom = 10,
    // The job has fewer than 16 bytes, or more than 24,823 (33,007 in version 2).
    JobSize = 11,
    // The job's version or closing bytes are wrong.
    JobSignature = 12,
    // The job's note is longer than 255 bytes, or its parts do not meet and end exactly.
    JobLayout = 13,
    // A filler in the job is not zero.
    JobFiller = 14,
    // The job's number of members is not its tree's.
    JobMembers = 15,
    // A mark is neither 0 nor 1.
    Mark = 16,
    // A marked vertex has a child.
    MarkChild = 17,
    // No vertex is marked.
    NoMark = 18,
    // The note is longer than 255 bytes.
    NoteLength = 19,
    // The output is shorter than the job.
    JobSpace = 20,
    // The event's vertex is 0, or above the number of arcs.
    EventVertex = 21,
    // Arrive at a vertex whose mark is 1, or leave at one whose mark is 0.
    EventMark = 22,
    // The quote's number is not that of the events committed so far.
    QuoteNumber = 23,
    // 1,000,000 events or more are committed.
    EventCount = 24,
    // The arc is not one that leaves the source.
    BranchArc = 25,
    // The arc has fewer than two users.
    BranchUsers = 26,
    // A floor is above its cap.
    FloorAboveCap = 27,
    // The adjusted need of an arc from the source is above its need.
    FloorsAboveNeed = 28,
    // A dead end is not marked.
    UnmarkedDeadEnd = 29,
    // A floor is above 0.
    FloorAboveZero = 30,
    // The list to step from has no entry, or more than 6.
    SmallArcCount = 31,
    // The number of classes is 0, or above 4.
    ClassCount = 32,
}

impl Reason {
    // The refusal for this reason at a place.
    pub fn at(self, place: usize) -> Refusal
        ensures reason_value { result.reason ≡ self }
        ensures place_value { result.place ≡ place }
    {
        Refusal {
            reason: self,
            place,
        }
    }
}

impl From<Reason> for u32 {
    ghost from_gives = { λ reason n. n ≡ number_of reason };

    fn from(reason: Reason) -> u32 {
        reason as u32
    }
}
