//! Laws of cursors and pages, each of which is a contract of a function that does nothing.

ghost use Rattle.std.specs.Prelude.{◌≡◌, ◌≤◌, ℕ, List, Some, length};
ghost use Rattle.road_model.specs.declared.answer.PageSpan.{PageSpan};
ghost use Rattle.road_model.specs.declared.request.Cursor.{Cursor};
ghost use Rattle.route_ranking.specs.Cursors.{IsSmall, cursor_of, cursor_text};
ghost use Rattle.route_ranking.specs.Chains.{IsChain, joined};

/// A written cursor is read again, as the same.
pub fn a_written_cursor_is_read_again()
    ensures { (c : Cursor) → IsSmall c → cursor_of (cursor_text c) ≡ Some c }
{}

/// A cursor has one spelling.
pub fn a_cursor_has_one_spelling()
    ensures spelling { (text : List ℕ) (c : Cursor) → cursor_of text ≡ Some c → text ≡ cursor_text c }
    ensures small { (text : List ℕ) (c : Cursor) → cursor_of text ≡ Some c → IsSmall c }
{}

/// The pages of a chain from the first item on follow on each other, and have each item once.
pub fn pages_join_to_the_whole<T>()
    ensures { (size : ℕ) (xs : List T) (spans : List PageSpan) → 1 ≤ size →
        IsChain (length xs) size 0 spans → joined spans xs ≡ xs }
{}
