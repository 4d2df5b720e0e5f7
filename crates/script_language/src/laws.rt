//! What holds of every script, by the tables alone.
ghost use Rattle.std.specs.Prelude.{ℕ, List};
ghost use Rattle.script_language.specs.BadLines.{NamesFirstBad};
ghost use Rattle.script_language.specs.Meaning.{script_of};
ghost use Rattle.script_language.specs.SaidLines.{HasItsLines};

/// A script is refused exactly if one of its lines is bad, and the refusal names the first bad line.
#[tactic(auto, using(crate::proofs::Refusals::first_bad_is_named))]
pub fn the_first_bad_line_is_named()
    ensures { (text : List ℕ) → NamesFirstBad text (script_of text) }
{}

/// The events and queries of a script are those that its lines say, each by itself, in their order.
#[tactic(auto, using(crate::proofs::Told::scripts_have_their_lines))]
pub fn scripts_have_their_lines()
    ensures { (text : List ℕ) → HasItsLines text (script_of text) }
{}
