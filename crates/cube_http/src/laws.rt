//! The worked examples and the laws of a stream. The functions do nothing: each clause is a law.
ghost use Rattle.std.specs.Prelude.{◌≡◌, ◌+◌, [], ◌∷◌, ◌++◌, true, false, codes, length, None, Some};
ghost use Rattle.cube_model.specs.declared.ask.Question.TheVariants as question;
ghost use Rattle.cube_model.specs.declared.reply.Fixed.TheVariants as fixed;
ghost use Rattle.cube_model.specs.declared.reply.Kind.TheVariants as kind;
ghost use Rattle.cube_model.specs.declared.reply.Reply.TheVariants as reply;
ghost use Rattle.cube_http.specs.declared.targets.Wanted.TheVariants.{Asked, Constant};
ghost use Rattle.cube_http.specs.Examples.{told, head, host, get_areas, post_count, expect_count};
ghost use Rattle.cube_http.specs.Examples.Told.{Waits, Asks, Refuses};
ghost use Rattle.cube_http.specs.Laws.{BreaksSayNothing, StreamsGoOn, StreamsStartAnew};
ghost use Rattle.cube_http.specs.Responses.{sends_of, crlf};
ghost use Rattle.cube_http.specs.Targets.{aimed};

/// What is heard of a stream, and at which byte.
pub fn worked_streams()
    ensures areas { told get_areas ≡ Asks (length get_areas) (Asked (aimed None (question.Query (codes "slice pay by region.area")))) false false ∷ [] }
    ensures half { told (codes "GET /v1/query?q=slice%20pay") ≡ [] }
    ensures post { told post_count ≡ Asks (length post_count) (Asked (aimed None (question.Query (codes "cell count")))) false false ∷ [] }
    ensures waits { told (expect_count ++ codes "q=cell+count") ≡ Waits (length expect_count) ∷ Asks (length expect_count + 12) (Asked (aimed None (question.Query (codes "cell count")))) false false ∷ [] }
    ensures no_host { told (head (codes "GET /v1/shape HTTP/1.1" ∷ []) ++ get_areas) ≡ Refuses 26 fixed.BadHead ∷ [] }
    ensures old { told (head (codes "GET /v1/shape HTTP/1.0" ∷ [])) ≡ Asks 26 (Asked (aimed None question.Shape)) false true ∷ [] }
    ensures chunked { told (head (codes "POST /v1/query HTTP/1.1" ∷ host ∷ codes "Transfer-Encoding: chunked" ∷ [])) ≡ Refuses 64 fixed.LengthRequired ∷ [] }
    ensures large { told (head (codes "POST /v1/query HTTP/1.1" ∷ host ∷ codes "Content-Length: 65537" ∷ [])) ≡ Refuses 59 fixed.TooLarge ∷ [] }
    ensures lengthless { told (head (codes "POST /v1/shape HTTP/1.1" ∷ host ∷ [])) ≡ Refuses 36 fixed.LengthRequired ∷ [] }
    ensures garbage { told (codes "hello" ++ 10 ∷ 10 ∷ []) ≡ Refuses 7 fixed.BadHead ∷ [] }
    ensures others { told (crlf ++ head (codes "HEAD http://a/g/staff/v1/query?p=1&q=cell+pay&q=2 HTTP/1.1" ∷ host ∷ codes "Connection: keep-alive, CLOSE" ∷ []) ++ head (codes "PUT /v1/shape HTTP/1.1" ∷ host ∷ []))
        ≡ Asks 104 (Asked (aimed (Some (codes "staff")) (question.Query (codes "cell pay")))) true true ∷ Asks 139 (Constant fixed.MethodGet) false false ∷ [] }
{}

/// The bytes of a response.
pub fn worked_responses()
    ensures areas { sends_of (reply.Made 200 kind.Csv (codes "region.area,pay" ++ 10 ∷ codes "South,60" ++ 10 ∷ codes "North,90" ++ 10 ∷ [])) false false
        ≡ head (codes "HTTP/1.1 200 OK" ∷ codes "Content-Type: text/csv; charset=utf-8" ∷ codes "Content-Length: 34" ∷ [])
        ∷ (codes "region.area,pay" ++ 10 ∷ codes "South,60" ++ 10 ∷ codes "North,90" ++ 10 ∷ []) ∷ [] }
    ensures refused { sends_of (reply.Fixed fixed.BadHead) true false
        ≡ head (codes "HTTP/1.1 400 Bad Request" ∷ codes "Content-Type: text/plain; charset=utf-8" ∷ codes "Content-Length: 12" ∷ codes "Connection: close" ∷ [])
        ∷ (codes "bad request" ++ 10 ∷ []) ∷ [] }
{}

/// However a stream goes on, what was heard of it stays. So the items whose last byte lies in a
/// piece are those of the stream so far behind its old length, however it is cut.
pub fn streams_go_on()
    ensures { StreamsGoOn }
{}

/// Line ends before a head say nothing, and may be dropped as they come.
pub fn breaks_say_nothing()
    ensures { BreaksSayNothing }
{}

/// Behind a whole request the stream starts anew.
pub fn streams_start_anew()
    ensures { StreamsStartAnew }
{}
