// Questions about a verb, or about none where a command line has no known one.
#![tactic(auto)]

ghost use Rattle.std.specs.Prelude.{◌≡◌};
ghost use Rattle.tool.specs.Verbs.{is_hidden, is_variant, takes_tape, takes_lines, gives_tape};
ghost use Rattle.tool.specs.Replies.{is_verb, is_none_or};

use tool::Verb;

// Build's parameter that is a variant.
const VARIANT_PLACE: usize = 3;

// No verb here: no verb at all, or one that only a script has.
pub fn is_hidden(in_script: bool, verb: Option<Verb>) -> bool
    ensures { result ≡ is_none_or (is_hidden in_script) verb }
{
    match verb {
        None => true,
        Some(verb) => !in_script && matches!(verb, Verb::InScript(_)),
    }
}

// The parameter of a place is a variant.
pub fn is_variant(verb: Option<Verb>, place: usize) -> bool
    ensures { result ≡ is_verb (λ known. is_variant known place) verb }
{
    matches!(verb, Some(Verb::Build)) && place == VARIANT_PLACE
}

// It takes a tape.
pub fn takes_tape(verb: Option<Verb>) -> bool
    ensures { result ≡ is_verb takes_tape verb }
{
    matches!(verb, Some(Verb::OnTape(_)))
}

// It takes the lines of a script.
pub fn takes_lines(verb: Option<Verb>) -> bool
    ensures { result ≡ is_verb takes_lines verb }
{
    matches!(verb, Some(Verb::Script))
}

// It gives a tape.
pub fn gives_tape(verb: Option<Verb>) -> bool
    ensures { result ≡ is_verb gives_tape verb }
{
    matches!(verb, Some(Verb::Build))
}
