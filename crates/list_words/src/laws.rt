//! What some words mean, as laws that have no code.

ghost use Rattle.std.specs.Prelude.{◌≡◌, [], ◌∷◌, Some, None, true, false, codes};
ghost use Rattle.clap.specs.Words.{fault_of};
ghost use Rattle.clap.specs.declared.error.kind.ErrorKind.TheVariants.{DisplayHelp, DisplayVersion, MissingSubcommand, MissingRequiredArgument, UnknownArgument, ValueValidation};
ghost use Rattle.log_recovery.specs.declared.modes.Mode.TheVariants.{Point, Tail};
ghost use Rattle.list_words.specs.Asked.{asked_in, list, state};
ghost use Rattle.list_words.specs.Definition.{wzlog};

/// Words that ask for something.
pub fn words_that_ask()
    ensures list { asked_in (codes "wzlog" ∷ codes "list" ∷ codes "x.log" ∷ [])
        ≡ Some (list (record {
          log = codes "x.log";
          number = None;
          from = 0;
          to = 18446744073709551615;
          key = None;
          form = record { json = false; text = false };
          summary = false;
          scan = false;
        })) }
    ensures path_last { asked_in (codes "wzlog" ∷ codes "scan" ∷ codes "--text" ∷ codes "--from=5" ∷ codes "--to"
        ∷ codes "9" ∷ codes "x.log" ∷ [])
        ≡ Some (list (record {
          log = codes "x.log";
          number = None;
          from = 5;
          to = 9;
          key = None;
          form = record { json = false; text = true };
          summary = false;
          scan = true;
        })) }
    ensures key { asked_in (codes "wzlog" ∷ codes "list" ∷ codes "x.log" ∷ codes "--key" ∷ codes "6b"
        ∷ codes "--json" ∷ codes "--summary" ∷ codes "--number" ∷ codes "12" ∷ [])
        ≡ Some (list (record {
          log = codes "x.log";
          number = Some 12;
          from = 0;
          to = 18446744073709551615;
          key = Some (codes "6b");
          form = record { json = true; text = false };
          summary = true;
          scan = false;
        })) }
    ensures state { asked_in (codes "wzlog" ∷ codes "state" ∷ codes "x.log" ∷ [])
        ≡ Some (state (record {
          log = codes "x.log";
          number = None;
          mode = Point;
          form = record { json = false; text = false };
        })) }
    ensures state_by_mode { asked_in (codes "wzlog" ∷ codes "state" ∷ codes "--mode" ∷ codes "tail" ∷ codes "x.log"
        ∷ []) ≡ Some (state (record {
          log = codes "x.log";
          number = None;
          mode = Tail;
          form = record { json = false; text = false };
        })) }
{}

/// Words that ask for nothing.
pub fn words_that_do_not_ask()
    ensures nothing { asked_in (codes "wzlog" ∷ []) ≡ None }
    ensures no_path { asked_in (codes "wzlog" ∷ codes "list" ∷ []) ≡ None }
    ensures two_paths { asked_in (codes "wzlog" ∷ codes "list" ∷ codes "x.log" ∷ codes "y.log" ∷ []) ≡ None }
    ensures other_command { asked_in (codes "wzlog" ∷ codes "dump" ∷ codes "x.log" ∷ []) ≡ None }
    ensures path_first { asked_in (codes "wzlog" ∷ codes "x.log" ∷ codes "list" ∷ []) ≡ None }
    ensures other_option { asked_in (codes "wzlog" ∷ codes "list" ∷ codes "x.log" ∷ codes "--mode" ∷ codes "tail" ∷ [])
        ≡ None }
    ensures no_number { asked_in (codes "wzlog" ∷ codes "list" ∷ codes "x.log" ∷ codes "--number" ∷ codes "0" ∷ [])
        ≡ None }
    ensures no_mode { asked_in (codes "wzlog" ∷ codes "state" ∷ codes "x.log" ∷ codes "--mode" ∷ codes "skip" ∷ [])
        ≡ None }
    ensures help { asked_in (codes "wzlog" ∷ codes "list" ∷ codes "--help" ∷ []) ≡ None }
{}

/// What clap's own definition answers to words that ask for nothing: its help or its version, which are no refusals, or
/// the kind of its error. A mode that has no such name it takes.
pub fn words_that_clap_answers()
    ensures help { fault_of wzlog (codes "wzlog" ∷ codes "list" ∷ codes "--help" ∷ []) ≡ DisplayHelp ∷ [] }
    ensures whole_help { fault_of wzlog (codes "wzlog" ∷ codes "--help" ∷ []) ≡ DisplayHelp ∷ [] }
    ensures version { fault_of wzlog (codes "wzlog" ∷ codes "--version" ∷ []) ≡ DisplayVersion ∷ [] }
    ensures nothing { fault_of wzlog (codes "wzlog" ∷ []) ≡ MissingSubcommand ∷ [] }
    ensures no_path { fault_of wzlog (codes "wzlog" ∷ codes "list" ∷ []) ≡ MissingRequiredArgument ∷ [] }
    ensures two_paths { fault_of wzlog (codes "wzlog" ∷ codes "list" ∷ codes "x.log" ∷ codes "y.log" ∷ [])
        ≡ UnknownArgument ∷ [] }
    ensures no_number { fault_of wzlog (codes "wzlog" ∷ codes "list" ∷ codes "x.log" ∷ codes "--number" ∷ codes "0"
        ∷ []) ≡ ValueValidation ∷ [] }
    ensures no_mode { fault_of wzlog (codes "wzlog" ∷ codes "state" ∷ codes "x.log" ∷ codes "--mode" ∷ codes "skip"
        ∷ []) ≡ [] }
{}
