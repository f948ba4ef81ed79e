// What holds of the script of every number.
ghost use Rattle.std.specs.Prelude.{◌≡◌, ◌<◌, ◌^◌, ℕ, Some, map};
ghost use Rattle.script_text.specs.Lines.{judged};
ghost use Rattle.load_gen.specs.Load.{load_items, load_script};

use script_text::whole_text;

/// Each line of the script of a number of 32 bits is the item that it was written for.
pub fn load_is_read()
    ensures { (number : ℕ) → number < 2 ^ 32 →
        judged (load_script number) ≡ map (λ it. Some it) (load_items number) }
{
    whole_text();
}
