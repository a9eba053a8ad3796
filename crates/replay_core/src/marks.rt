//! How far the clients are with the launched group.

ghost use Rattle.std.specs.Prelude.{◌≡◌, ◌≤◌, ◌==◌, ℕ, length, vec_len, if◌then◌else◌};
ghost use Rattle.replay_core.specs.Mirrors.{mark_of};
ghost use Rattle.replay_core.specs.declared.phases.Mark.TheVariants.{Out};

use crate::phases::Mark;

/// How far a client is with the launched group.
pub(crate) fn mark_of(marks: &[Mark], client: u32) -> Mark
    ensures { result ≡ mark_of marks.now client }
{
    match (client as usize).checked_sub(1) {
        Some(place) if place < marks.len() => marks[place],
        _ => Mark::Out,
    }
}

/// Notes how far a client is with the launched group.
pub(crate) fn set_mark(marks: &mut Vec<Mark>, client: u32, mark: Mark)
    ensures len { vec_len marks.new ≡ vec_len marks.old }
    ensures set { 1 ≤ client → client ≤ length marks.old.items → (c : ℕ)
        → mark_of marks.new.items c ≡ (if c == client then mark else mark_of marks.old.items c) }
{
    let Some(place) = (client as usize).checked_sub(1) else {
        return;
    };
    if place < marks.len() {
        marks[place] = mark;
    }
}

/// Sets all marks back: nobody has inserted.
pub(crate) fn clear_marks(marks: &mut Vec<Mark>)
    ensures len { vec_len marks.new ≡ vec_len marks.old }
    ensures cleared { (c : ℕ) → mark_of marks.new.items c ≡ Out }
{
    marks.fill(Mark::Out);
}
