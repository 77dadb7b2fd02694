// The split in cost classes.
ghost use Rattle.std.specs.Prelude.{◌≡◌};
ghost use Rattle.answers.specs.Classes.{classed_of, classes_answer, classes_list, classes_totals};
ghost use Rattle.answer_forms.specs.Checked.{answer_of};
ghost use Rattle.capi.specs.Structs.{encode_classes, decode_classes};

use engine::ClassSplit;

// The totals paid in each of four classes, then those of cost.
#[repr(C)]
#[derive(Clone, Copy, Debug, PartialEq, Eq)]
pub struct ZilqodurClassSplit {
    pub refusal: u32,
    pub place: usize,
    pub members: usize,
    pub totals: [u64; 8],
}

impl From<ClassSplit> for ZilqodurClassSplit {
    ghost from_gives = { λ split s. s ≡ encode_classes (answer_of split.answer) split.totals };

    fn from(split: ClassSplit) -> Self {
        let ClassSplit { answer, totals } = split;
        match answer {
            Ok(members) => ZilqodurClassSplit {
                refusal: 0,
                place: 0,
                members,
                totals,
            },
            Err(refusal) => ZilqodurClassSplit {
                refusal: refusal.number(),
                place: refusal.place,
                members: 0,
                totals,
            },
        }
    }
}

#[unsafe(no_mangle)]
pub extern "C" fn zilqodur_split_classes(
    parents: &[u16],
    costs: &[u32],
    marks: &[u16],
    classes: usize,
    out: &mut [u64],
) -> ZilqodurClassSplit
    ensures result_value { decode_classes result
        ≡ classes_answer (classed_of parents.now costs.now marks.now classes)
        out.old }
    ensures value { result
        ≡ encode_classes (decode_classes result)
        (classes_totals (classed_of parents.now costs.now marks.now classes)
        out.old) }
    ensures out_after { out.new
        ≡ classes_list (classed_of parents.now costs.now marks.now classes)
        out.old }
{
    ZilqodurClassSplit::from(engine::split_classes(parents, costs, marks, classes, out))
}
