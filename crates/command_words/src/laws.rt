ghost use Rattle.std.specs.Prelude.{◌≡◌, List, None, Some, true};
ghost use Rattle.command_words.specs.Forms.{IsPlan, form_of, words_for};
ghost use Rattle.command_words.specs.Lines.{Given, Text, are_names, given_from};
ghost use Rattle.command_words.specs.Spelling.{Spells};
ghost use Rattle.command_words.specs.declared.plan.Plan.{Plan};

/// What the words behind a command give is what they spell: options in two words or in one and
/// positionals, and behind two dashes positionals alone. Words spell one thing at most.
pub fn words_spell()
    ensures spelled { (names words : List Text) (given : List Given)
        → given_from names words None ≡ Some given → Spells names words given }
    ensures given { (names words : List Text) (given : List Given) → are_names names ≡ true
        → Spells names words given → given_from names words None ≡ Some given }
{}

/// Each plan with a path of a byte or more has words that are read as that plan, and words stand
/// for such plans alone.
pub fn plans_have_words()
    ensures read { (plan : Plan) → IsPlan plan → form_of (words_for plan) ≡ Some plan }
    ensures only { (words : List Text) (plan : Plan) → form_of words ≡ Some plan → IsPlan plan }
{}
