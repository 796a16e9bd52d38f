// Replies written by the definitions alone.
ghost use Rattle.std.specs.Prelude.{◌≡◌, [], ◌∷◌, codes};
ghost use Rattle.cube_model.specs.declared.ask.Question.TheVariants.{Query, Witness, Shape};
ghost use Rattle.cube_model.specs.declared.entry.Entry.TheVariants.{Asked};
ghost use Rattle.cube_model.specs.declared.outcome.Outcome.TheVariants.{Given, NoMemory};
ghost use Rattle.cube_model.specs.declared.reply.Fixed.TheVariants as constant;
ghost use Rattle.cube_model.specs.declared.reply.Kind.TheVariants.{Csv, Plain};
ghost use Rattle.cube_model.specs.declared.reply.Reply.TheVariants.{Made, Fixed};
ghost use Rattle.cube_model.specs.Cores.{shown};
ghost use Rattle.cube_model.specs.Verdicts.{source};
ghost use Rattle.cube_core.specs.Worked.{pay_core};
ghost use Rattle.cube_dims.specs.Examples.{pay_dims};
ghost use Rattle.cube_rollup.specs.Rollups.{cells_at};
ghost use Rattle.cube_engine.specs.Examples.{own, of_group, pay_policy, pay_rooms, months};
ghost use Rattle.cube_engine.specs.Steps.{manner};

/// What the definitions reply to some asks of the pay cube, where each cell of a city in a month is protected.
pub fn worked_asks()
    ensures sum { (manner pay_dims).reply (pay_rooms []) (own (Query (codes "cell pay"))) Given ≡ Made 200 Csv (codes "pay\n150\n") }
    ensures months { (manner pay_dims).reply (pay_rooms []) (own (Query (codes "slice pay by time.month"))) Given ≡ Made 200 Csv (codes "time.month,pay\nJan,80\nFeb,70\n") }
    ensures enters { (manner pay_dims).next (pay_rooms []) (own (Query (codes "slice pay by time.month"))) Given ≡ pay_rooms (Asked months ∷ []) }
    ensures areas { (manner pay_dims).reply (pay_rooms []) (own (Query (codes "slice pay by region.area"))) Given ≡ Made 200 Csv (codes "region.area,pay\nSouth,60\nNorth,90\n") }
    ensures areas_after_months { (manner pay_dims).reply (pay_rooms (Asked months ∷ [])) (own (Query (codes "slice pay by region.area"))) Given ≡ Made 403 Plain (codes "source: the cuboid (region.area, time.month) does not cut the cell (region.city=Lyon, time.month=Feb)\n") }
    ensures refused_stays { (manner pay_dims).next (pay_rooms (Asked months ∷ [])) (own (Query (codes "slice pay by region.area"))) Given ≡ pay_rooms (Asked months ∷ []) }
    ensures quarter_stays { (manner pay_dims).next (pay_rooms (Asked months ∷ [])) (own (Query (codes "slice pay by time.quarter"))) Given ≡ pay_rooms (Asked months ∷ []) }
    ensures quarter_after_months { (manner pay_dims).reply (pay_rooms (Asked months ∷ [])) (own (Query (codes "slice pay by time.quarter"))) Given ≡ Made 200 Csv (codes "time.quarter,pay\nQ1,150\n") }
    ensures months_have_two_cells { cells_at (shown pay_core pay_policy) (source (Asked months ∷ []) 0) ≡ 2 }
    ensures word { (manner pay_dims).reply (pay_rooms []) (own (Query (codes "cel pay"))) Given ≡ Made 400 Plain (codes "syntax at byte 3\n") }
    ensures member { (manner pay_dims).reply (pay_rooms []) (own (Query (codes "cell pay region.city=Rome"))) Given ≡ Made 404 Plain (codes "unknown member at byte 21\n") }
    ensures backwards { (manner pay_dims).reply (pay_rooms []) (own (Query (codes "range hours time.month=Feb..Jan"))) Given ≡ Made 400 Plain (codes "backwards at byte 23\n") }
    ensures group { (manner pay_dims).reply (pay_rooms []) (of_group (codes "none") Shape) Given ≡ Made 404 Plain (codes "unknown group\n") }
    ensures memory { (manner pay_dims).reply (pay_rooms []) (own (Query (codes "slice pay by time.month"))) NoMemory ≡ Fixed constant.NoMemory }
    ensures memory_stays { (manner pay_dims).next (pay_rooms []) (own (Query (codes "slice pay by time.month"))) NoMemory ≡ pay_rooms [] }
{}

/// What the definitions reply to questions for the changes that hide a cell of the pay cube.
pub fn worked_changes()
    ensures at_first { (manner pay_dims).reply (pay_rooms []) (own (Witness (codes "cell pay region.city=Lyon, time.month=Feb"))) Given ≡ Made 200 Csv (codes "region.city,time.month,change\nLyon,Feb,1\n") }
    ensures after_months { (manner pay_dims).reply (pay_rooms (Asked months ∷ [])) (own (Witness (codes "cell pay region.city=Lyon, time.month=Feb"))) Given ≡ Made 200 Csv (codes "region.city,time.month,change\nLyon,Feb,1\nParis,Feb,-1\n") }
    ensures stays { (manner pay_dims).next (pay_rooms []) (own (Witness (codes "cell pay region.city=Lyon, time.month=Feb"))) Given ≡ pay_rooms [] }
    ensures empty { (manner pay_dims).reply (pay_rooms []) (own (Witness (codes "cell pay region.city=Nice, time.month=Feb"))) Given ≡ Made 404 Plain (codes "empty cell\n") }
    ensures not_protected { (manner pay_dims).reply (pay_rooms []) (own (Witness (codes "cell pay region.area=South"))) Given ≡ Made 404 Plain (codes "not protected\n") }
    ensures count { (manner pay_dims).reply (pay_rooms []) (own (Witness (codes "cell count"))) Given ≡ Made 400 Plain (codes "not a cell of a measure\n") }
    ensures slice { (manner pay_dims).reply (pay_rooms []) (own (Witness (codes "slice pay by time.month"))) Given ≡ Made 400 Plain (codes "not a cell of a measure\n") }
    ensures span { (manner pay_dims).reply (pay_rooms []) (own (Witness (codes "range pay time.month=Jan..Feb"))) Given ≡ Made 400 Plain (codes "not a cell of a measure\n") }
    ensures word { (manner pay_dims).reply (pay_rooms []) (own (Witness (codes "cel pay"))) Given ≡ Made 400 Plain (codes "syntax at byte 3\n") }
    ensures memory { (manner pay_dims).reply (pay_rooms []) (own (Witness (codes "cell count"))) NoMemory ≡ Fixed constant.NoMemory }
{}
