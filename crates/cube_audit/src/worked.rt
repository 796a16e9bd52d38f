// Transcripts read, and audits made, by the definitions alone.
ghost use Rattle.std.specs.Prelude.{◌≡◌, ◌∷◌, [], codes, Ok};
ghost use Rattle.cube_audit.specs.Examples.{item, months, areas, wrong_months, cities_of_hours, refusal, line_of, said};
ghost use Rattle.cube_audit.specs.Transcripts.{transcript_of};

/// What the definitions say of small transcripts: what is read, and the faults of those with a mistake.
pub fn worked_transcripts()
    ensures none { transcript_of (codes "[]") ≡ Ok [] }
    ensures one { transcript_of (codes "[{\"q\":\"cell pay\",\"status\":200,\"body\":\"pay\\n150\\n\"}]") ≡ Ok (item (codes "cell pay") 200 (codes "pay\n150\n") ∷ []) }
    ensures others_and_twice { transcript_of (codes "[{\"status\":400,\"at\":[0.5],\"q\":\"a\",\"body\":\"\",\"status\":599}]") ≡ Ok (item (codes "a") 599 [] ∷ []) }
    ensures not_json { said (codes "[") ≡ codes "not json" }
    ensures not_array { said (codes "{}") ≡ codes "not an array" }
    ensures no_object { said (codes "[1]") ≡ codes "item 1" }
    ensures no_body { said (codes "[{\"q\":\"a\",\"status\":200}]") ≡ codes "item 1" }
    ensures point { said (codes "[{\"q\":\"a\",\"status\":200.0,\"body\":\"\"}]") ≡ codes "item 1" }
    ensures low { said (codes "[{\"q\":\"a\",\"status\":99,\"body\":\"\"}]") ≡ codes "item 1" }
    ensures second { said (codes "[{\"q\":\"a\",\"status\":100,\"body\":\"\"},{\"q\":\"a\",\"status\":600,\"body\":\"\"}]") ≡ codes "item 2" }
{}

/// What an audit of the pay cube tells by the definitions.
pub fn worked_audits()
    ensures nothing { line_of [] ≡ codes "yes 0\n" }
    ensures months { line_of (months ∷ []) ≡ codes "yes 1\n" }
    ensures then_areas { line_of (months ∷ areas ∷ []) ≡ codes "no: measure pay, cell (region.city=Lyon, time.month=Feb)\n" }
    ensures wrong { line_of (wrong_months ∷ areas ∷ []) ≡ codes "no: item 1\n" }
    ensures passed_over { line_of (refusal ∷ months ∷ []) ≡ codes "yes 1\n" }
    ensures counted_with_all { line_of (refusal ∷ wrong_months ∷ []) ≡ codes "no: item 2\n" }
    ensures links { line_of (cities_of_hours ∷ []) ≡ codes "no: measure hours, cell (region.city=Nice, time.month=Jan)\n" }
    ensures from_bytes { said (codes "[{\"q\":\"cell pay\",\"status\":200,\"body\":\"pay\\n150\\n\"}]") ≡ codes "yes 1\n" }
{}
