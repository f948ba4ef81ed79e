// What holds of every line, item and script.
ghost use Rattle.std.specs.Prelude.{◌≡◌, ◌≤◌, ℕ, List, ◌∷◌, [], ◌++◌, Some, flat_map, length, map};
ghost use Rattle.std.specs.List.{All};
ghost use Rattle.script_text.specs.declared.item.Item.{Item};
ghost use Rattle.script_text.specs.declared.item.Item.TheVariants as item;
ghost use Rattle.script_text.specs.Items.{item_of, longest};
ghost use Rattle.script_text.specs.Lines.{judged};
ghost use Rattle.script_words.specs.Lines.{lines_of};
ghost use Rattle.script_text.specs.Written.{IsComment, IsSpelling, IsWritable, line_of};
ghost use Rattle.script_words.specs.Words.{Lacks};

/// The line that an item is written as is read as it, and so are its other spellings alone. What a line without an
/// LF is read as has a line.
pub fn one_line()
    ensures reads { (line : List ℕ) (it : Item) → item_of line ≡ Some it → IsSpelling it line }
    ensures writes { (it : Item) → IsWritable it → item_of (line_of it) ≡ Some it }
    ensures writable { (line : List ℕ) (it : Item) → Lacks 10 line → item_of line ≡ Some it → IsWritable it }
    ensures comments { (line : List ℕ) → IsComment line → length line ≤ longest → item_of line ≡ Some item.Nothing }
{}

/// A text is its lines, each with its LF, and bytes without one. The lines of items, each with its LF, are judged as
/// those items.
pub fn whole_text()
    ensures parts { (text : List ℕ)
        → (rest : List ℕ) × (flat_map (λ line. line ++ 10 ∷ []) (lines_of text) ++ rest ≡ text) × Lacks 10 rest }
    ensures clean { (text : List ℕ) → All (Lacks 10) (lines_of text) }
    ensures script { (items : List Item) → All IsWritable items
        → judged (flat_map (λ it. line_of it ++ 10 ∷ []) items) ≡ map (λ it. Some it) items }
{}
