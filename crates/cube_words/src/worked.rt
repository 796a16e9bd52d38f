// Words for the help, numbers of asks, and the number and the size of a made cube, read by the definitions alone.
ghost use Rattle.std.specs.Prelude.{◌≡◌, true, false, [], ◌∷◌, codes, Some, None, Ok, Err};
ghost use Rattle.cube_words.specs.declared.ordered.Orders.TheVariants as orders;
ghost use Rattle.cube_words.specs.declared.words.Command.TheVariants as command;
ghost use Rattle.cube_words.specs.declared.words.Usage.TheVariants as usage;
ghost use Rattle.cube_words.specs.Words.{is_short, is_requests, is_idle, is_number, is_size, orders_of};

/// Which words the definitions take for `--help`, before a command, behind one and alone, and which they call wrong.
pub fn worked_help()
    ensures letter { is_short (codes "-h") ≡ true }
    ensures word { is_short (codes "help") ≡ true }
    ensures neither { is_short (codes "-help") ≡ false }
    ensures alone { orders_of (codes "help" ∷ []) ≡ Ok (orders.Help None) }
    ensures before { orders_of (codes "help" ∷ codes "sum" ∷ []) ≡ Ok (orders.Help (Some command.Sum)) }
    ensures behind { orders_of (codes "sum" ∷ codes "-h" ∷ codes "x" ∷ []) ≡ Ok (orders.Help (Some command.Sum)) }
    ensures no_command { orders_of (codes "help" ∷ codes "sun" ∷ []) ≡ Err (usage.Wrong 1) }
    ensures two_commands { orders_of (codes "-h" ∷ codes "sum" ∷ codes "ask" ∷ []) ≡ Err (usage.Wrong 1) }
    ensures no_help { orders_of (codes "-help" ∷ []) ≡ Err (usage.Wrong 0) }
{}

/// Which texts the definitions take for a stated number of asks.
pub fn worked_requests()
    ensures zeros { is_requests (codes "0016777216") ≡ true }
    ensures too_many { is_requests (codes "16777217") ≡ false }
    ensures none { is_requests (codes "0") ≡ false }
    ensures sign { is_requests (codes "+1") ≡ false }
{}

/// Which texts the definitions take for a number of seconds.
pub fn worked_seconds()
    ensures never { is_idle (codes "0") ≡ true }
    ensures a_day { is_idle (codes "86400") ≡ true }
    ensures too_long { is_idle (codes "86401") ≡ false }
    ensures none { is_idle (codes "") ≡ false }
{}

/// Which texts the definitions take for the number and for the size of a made cube.
pub fn worked_makings()
    ensures greatest { is_number (codes "18446744073709551615") ≡ true }
    ensures too_great { is_number (codes "18446744073709551616") ≡ false }
    ensures too_long { is_number (codes "000000000000000000001") ≡ false }
    ensures empty { is_number (codes "") ≡ false }
    ensures size { is_size (codes "020") ≡ true }
    ensures no_size { is_size (codes "0") ≡ false }
    ensures too_large { is_size (codes "21") ≡ false }
{}
