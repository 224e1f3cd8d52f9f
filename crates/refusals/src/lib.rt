// How every call of every crate is refused: its checks in their order, why a call is refused, and what a refused call leaves.
#![tactic(auto)]

ghost use Rattle.std.specs.Prelude.{◌≡◌};
ghost use Rattle.refusals.specs.Refusals.{number_told};

use std::error::Error;
use std::fmt;

// Why a call is refused. Each has the number by which document 01 and C know it.
#[derive(Clone, Copy, Debug, PartialEq, Eq)]
pub enum Refusal {
    Rule = 1,
    Width = 2,
    BucketCount = 3,
    Mask = 4,
    Cells = 5,
    Scratch = 6,
    Tag = 7,
    Bucket = 8,
    Full = 9,
    EndsEarly = 11,
    Header = 12,
    Marks = 13,
    Fingerprint = 14,
    GoesOn = 15,
    Output = 16,
    WideCell = 17,
    Row = 18,
    Order = 19,
    Filling = 20,
    EarlierKind = 23,
    NotDegenerate = 24,
}

impl Refusal {
    pub fn number(self) -> u32
        ensures { result ≡ number_told self }
    {
        self as u32
    }
}

impl fmt::Display for Refusal {
    fn fmt<W: fmt::Write>(&self, f: &mut fmt::Formatter<W>) -> fmt::Result {
        f.write_str(match self {
            Refusal::Rule => "the rule is not 0, 1 or 2",
            Refusal::Width => "the width is not 4 to 16",
            Refusal::BucketCount => {
                "the bucket count is not 1 to 65536, or is odd (rule 1) or no power of two (rules 0 and 2)"
            }
            Refusal::Mask => {
                "the mask is not 0 (rules 0 and 1) or not 1 to the bucket count less 2 (rule 2); a file may need convert"
            }
            Refusal::Cells => "the table does not have four cells for each bucket",
            Refusal::Scratch => "scratch is shorter than two words for each bucket",
            Refusal::Tag => "the tag has no byte or more than 64",
            Refusal::Bucket => "there is no bucket of this number",
            Refusal::Full => "the list is full for this tag, however its entries are moved",
            Refusal::EndsEarly => "the file ends early",
            Refusal::Header => {
                "the first byte or a field of the file is not as the writer makes it"
            }
            Refusal::Marks => "the first byte of a bucket in the file is above 15",
            Refusal::Fingerprint => "a fingerprint in the file is 0 or does not fit the width",
            Refusal::GoesOn => "the file goes on after its end",
            Refusal::Output => "the output is too short",
            Refusal::WideCell => "a cell does not fit the width",
            Refusal::Row => "a row number in the file is 3876 or more",
            Refusal::Order => "a bucket in the file is not in ascending order",
            Refusal::Filling => "a bit behind the last bucket in the file is set",
            Refusal::EarlierKind => {
                "the file has fingerprints of an earlier kind; fill the list anew from the register"
            }
            Refusal::NotDegenerate => {
                "the file needs no conversion: it is sound and of another rule or mask"
            }
        })
    }
}

impl Error for Refusal {}
