// Marks of names.
ghost use Rattle.std.specs.Prelude.{◌≡◌, ◌<◌, true, ℕ, List as Seq};
ghost use Rattle.opa_session.specs.Telling.NameMarks.{mark_of, may_be};

use opa_io::Txt;

pub(crate) const MARKS: usize = 256;

/// The mark of a name: by its last two bytes.
#[inline(always)]
pub(crate) fn mark_of(name: &Txt) -> usize
    ensures mark { result ≡ mark_of name.now }
    ensures within { result < 256 }
{
    let bytes = name.as_str().as_bytes();
    let count = bytes.len();
    if count < 2 {
        0
    } else {
        (bytes[count - 2] as usize * 10 + bytes[count - 1] as usize) % MARKS
    }
}

/// Marks a name.
pub(crate) fn set_mark(marks: &mut [bool; 256], name: &Txt)
    ensures kept { (n : Seq ℕ) → may_be marks.old n ≡ true → may_be marks.new n ≡ true }
    ensures set { may_be marks.new name.now ≡ true }
{
    let place = mark_of(name);
    marks[place] = true;
}

#[inline(always)]
pub(crate) fn may_be(marks: &[bool; 256], name: &Txt) -> bool
    ensures { result ≡ may_be marks.now name.now }
{
    marks[mark_of(name)]
}
