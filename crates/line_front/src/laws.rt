//! Laws of request lines, each of which is a contract of a function that does nothing.

ghost use Rattle.std.specs.Prelude.{◌≡◌, ◌++◌, true, codes};
ghost use Rattle.road_model.specs.declared.request.Cursor.{Cursor as Place};
ghost use Rattle.road_model.specs.declared.request.Request.TheVariants.{Next};
ghost use Rattle.route_ranking.specs.Cursors.{IsSmall, cursor_text};
ghost use Rattle.line_front.specs.Requests.{is_reader, parsed_of};
ghost use Rattle.line_front.specs.declared.requests.Parsed.TheVariants as parsed;
ghost use Rattle.line_front.specs.declared.requests.Role.{Role as Asker};

/// The cursor of a `more` line is read after the word `next` as that cursor, of everyone who may ask for routes.
pub fn a_written_cursor_is_a_request()
    ensures { (who : Asker) (c : Place) → is_reader who ≡ true → IsSmall c →
        parsed_of who (codes "next " ++ cursor_text c) ≡ parsed.Request (Next c) }
{}
