//! What the plain text of a state is, as a law that has no code.

ghost use Rattle.std.specs.Prelude.{◌≡◌};
ghost use Rattle.model_base.specs.Recovery.{Recovered};
ghost use Rattle.model_base.specs.Text.{recovered_text};
ghost use Rattle.list_text.specs.Rows.{plain_hex};
ghost use Rattle.list_call.specs.StateTexts.{state_text};

/// In the plain form with hexadecimal digits `state` shows exactly what `recover` prints.
pub fn plain_state_is_recovered_text()
    ensures { (r : Recovered) → state_text plain_hex r ≡ recovered_text r }
{}
