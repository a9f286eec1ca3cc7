// What the words of a command line ask for, beside how they are read.
ghost use Rattle.std.specs.Prelude.{◌≡◌, [], ◌∷◌, codes, Some, None};
ghost use Rattle.live_options.specs.Words.{OptionsOf, options};
ghost use Rattle.live_options.specs.Bounds.{AskWithin};

/// The options that words ask for are within their bounds.
#[tactic(none)]
pub fn options_are_within()
    ensures { AskWithin }
{}

/// Words whose options are worked out by hand.
#[tactic(none)]
pub fn options_are_worked_out()
    ensures defaults { options (codes "livesim" ∷ []) ≡ Some (record { workers = 2; interval = 10000; lookback = 10000; load = None }) }
    ensures given { options (codes "livesim" ∷ codes "--lookback" ∷ codes "5" ∷ codes "--workers=007" ∷ codes "--interval"
        ∷ codes "1000000000" ∷ codes "--" ∷ [])
        ≡ Some (record { workers = 7; interval = 1000000000; lookback = 5; load = None }) }
    ensures made { options (codes "livesim" ∷ codes "--load=4096" ∷ codes "--workers" ∷ codes "0" ∷ [])
        ≡ Some (record { workers = 0; interval = 10000; lookback = 10000; load = Some 4096 }) }
    ensures no_word { options [] ≡ None }
    ensures no_value { options (codes "livesim" ∷ codes "--workers" ∷ []) ≡ None }
    ensures repeated { options (codes "livesim" ∷ codes "--workers=1" ∷ codes "--workers=1" ∷ []) ≡ None }
    ensures unknown { options (codes "livesim" ∷ codes "--help" ∷ []) ≡ None }
    ensures stray { options (codes "livesim" ∷ codes "3" ∷ []) ≡ None }
    ensures too_many { options (codes "livesim" ∷ codes "--workers" ∷ codes "65" ∷ []) ≡ None }
    ensures too_few { options (codes "livesim" ∷ codes "--interval=0" ∷ []) ≡ None }
    ensures too_far { options (codes "livesim" ∷ codes "--lookback=1099511627777" ∷ []) ≡ None }
    ensures no_stage { options (codes "livesim" ∷ codes "--load" ∷ codes "0" ∷ []) ≡ None }
    ensures too_many_stages { options (codes "livesim" ∷ codes "--load=4097" ∷ []) ≡ None }
    ensures too_long { options (codes "livesim" ∷ codes "--workers=00000000000003" ∷ []) ≡ None }
    ensures signed { options (codes "livesim" ∷ codes "--workers=+3" ∷ []) ≡ None }
    ensures empty { options (codes "livesim" ∷ codes "--workers=" ∷ []) ≡ None }
{}
