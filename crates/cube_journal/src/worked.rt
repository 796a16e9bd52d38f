// The public text of the pay cube, and what small journals recover, by the definitions alone.
ghost use Rattle.std.specs.Prelude.{◌≡◌, ◌++◌, codes};
ghost use Rattle.cube_dims.specs.Examples.{pay_dims};
ghost use Rattle.cube_journal.specs.PublicText.{public_text_of};
ghost use Rattle.cube_journal.specs.Examples.{pay_policy, few_policy, pay_shape, digits, recovers, compact_history};
ghost use Rattle.cube_journal.specs.SecondText.{journal2_text};

/// What is public of the pay cube, and journals of it: whole, torn, begun, and damaged ones.
pub fn worked_journals()
    ensures public { public_text_of pay_dims pay_policy pay_shape ≡ codes "d \"region\"\nl \"city\"\nl \"area\"\np \"Lyon\" \"South\"\np \"Nice\" \"South\"\np \"Paris\" \"North\"\nd \"time\"\nl \"month\"\nl \"quarter\"\np \"Jan\" \"Q1\"\np \"Feb\" \"Q1\"\nm \"pay\" 0 lattice\nm \"hours\" 0 parity\no \"pay\" 0 0\nf 0 0 1\nf 0 1 1\nf 1 0 1\nf 2 0 1\nf 2 1 1\n" }
    ensures few { public_text_of pay_dims few_policy pay_shape ≡ codes "d \"region\"\nl \"city\"\nl \"area\"\np \"Lyon\" \"South\"\np \"Nice\" \"South\"\np \"Paris\" \"North\"\nd \"time\"\nl \"month\"\nl \"quarter\"\np \"Jan\" \"Q1\"\np \"Feb\" \"Q1\"\nm \"pay\" 0 lattice\nm \"hours\" 0 parity\no \"pay\" 2 2\nn 3\ns 0 1 0\nf 0 0 1\nf 0 1 1\nf 1 0 1\nf 2 0 1\nf 2 1 1\n" }
    ensures months { recovers (codes "cube-journal 1 " ++ digits ++ codes "\nq slice pay by time.month\nq slice pay by ti") ≡ codes "asked slice pay by time.month\n" }
    ensures begun { recovers (codes "cube-journal 1 0123") ≡ codes "" }
    ensures diary { recovers (codes "cube-diary") ≡ codes "damaged 1" }
    ensures blanks { recovers (codes "cube-journal 1 " ++ digits ++ codes "\nq slice  pay by time.month\n") ≡ codes "damaged 2" }
    ensures count { recovers (codes "cube-journal 1 " ++ digits ++ codes "\nq cell count\n") ≡ codes "damaged 2" }
    ensures old_source { recovers (codes "cube-journal 1 " ++ digits ++ codes "\ns 0 2 0\n") ≡ codes "damaged 2" }
    ensures second { recovers (codes "cube-journal 2 " ++ digits ++ codes "\ns 0 2 0\nk 1 0 2\nk 1 4\nq slice pay by time.month\n") ≡ codes "source 0\nlink 1\nlink 1\nasked slice pay by time.month\n" }
    ensures late { recovers (codes "cube-journal 2 " ++ digits ++ codes "\nq slice pay by time.month\ns 0 2 0\n") ≡ codes "damaged 3" }
    ensures same_place { recovers (codes "cube-journal 2 " ++ digits ++ codes "\nk 1 2 2\n") ≡ codes "damaged 2" }
    ensures leading_zero { recovers (codes "cube-journal 2 " ++ digits ++ codes "\ns 0 02 0\n") ≡ codes "damaged 2" }
    ensures compact { journal2_text digits compact_history ≡ codes "cube-journal 2 " ++ digits ++ codes "\ns 0 2 0\nk 1 0 2\nk 1 4\n" }
    ensures compact_back { recovers (journal2_text digits compact_history) ≡ codes "source 0\nlink 1\nlink 1\n" }
{}
