// Advice, words, and the cells that may be one person's, by the definitions alone.
ghost use Rattle.std.specs.Prelude.{◌≡◌, [], ◌∷◌, codes};
ghost use Rattle.cube_model.specs.Cores.{shown};
ghost use Rattle.cube_core.specs.Worked.{pay_core, full_core};
ghost use Rattle.cube_advise.specs.Advice.{advice_text};
ghost use Rattle.cube_advise.specs.Behind.{behind_text};
ghost use Rattle.cube_advise.specs.Holdings.{most_apart};
ghost use Rattle.cube_advise.specs.Words.{words_of};
ghost use Rattle.cube_advise.specs.Lines.{numbered, workload_words};
ghost use Rattle.cube_advise.specs.Lone.{lone_words};
ghost use Rattle.cube_advise.specs.Examples.{pay_policy, pay_shown, lone_core, months, hours};

/// What the definitions say of the pay cube before anything is asked, of a cube with one fact, and of the pay cube once pay by
/// month was answered.
pub fn worked_advice()
    ensures first { advice_text pay_core.dims pay_shown [] ≡ codes "measure pay\nsafe (region.area, time.quarter)\nsafe (time.month)\n" }
    ensures alone { advice_text lone_core.dims (shown lone_core pay_policy) [] ≡ codes "measure pay\nnone\n" }
    ensures behind { advice_text pay_core.dims pay_shown months ≡ codes "measure pay\nsource (time.month)\nsafe (time.month)\n" }
{}

/// What they say of the pay cube behind a history: at first, with room for all requests; once pay by month was answered; and once hours
/// by area and by month are told in one pair of places. Of as many places as there are the most is one less where one is protected.
pub fn worked_advice_behind()
    ensures first { behind_text pay_core.dims pay_shown [] ≡ codes "measure pay\nsafe (region.area, time.quarter)\nsafe (time.month)\nlinks hours 0 of 4\nroom 16384\n" }
    ensures months { behind_text pay_core.dims pay_shown months ≡ codes "measure pay\nsource (time.month)\nsafe (time.month)\nlinks hours 0 of 4\nroom 16383\n" }
    ensures hours { behind_text pay_core.dims pay_shown hours ≡ codes "measure pay\nsafe (region.area, time.quarter)\nsafe (time.month)\nlinks hours 1 of 4\nroom 16383\n" }
    ensures none_guarded { most_apart 5 [] ≡ 5 }
{}

/// The words for three lines: an answer, a refusal behind it, and a text that is not read; for a sum over one place; and for the
/// lines of a file.
pub fn worked_words()
    ensures three { numbered 1 (words_of pay_core.dims pay_shown [] (codes "slice pay by time.month" ∷ codes "slice pay by region.area" ∷ codes "cel pay" ∷ [])) ≡ codes "1 answer\n2 source\n3 unread\n" }
    ensures single { numbered 1 (words_of pay_core.dims pay_shown [] (codes "cell hours region.city=Nice" ∷ codes "cell count" ∷ [])) ≡ codes "1 single\n2 answer\n" }
    ensures file { workload_words pay_core.dims pay_shown [] (codes "cel pay\r\n\ncell count") ≡ codes "1 unread\n2 unread\n3 answer\n" }
{}

/// Which cells may be one person's. Of the pay cube the South and January: two people are in Paris in February, so neither the North nor
/// February. With one fact at each city in each month all cells may be, and of a cube with one fact nothing can be released.
pub fn worked_lone()
    ensures first { lone_words pay_core pay_policy ≡ codes "pay: 1 cell of (region.area, time.quarter) may be one person's\npay: 1 cell of (time.month) may be one person's\n" }
    ensures full { lone_words full_core pay_policy ≡ codes "pay: 3 cells of (region.city, time.quarter) may be one person's\npay: 2 cells of (time.month) may be one person's\n" }
    ensures alone { lone_words lone_core pay_policy ≡ [] }
{}
