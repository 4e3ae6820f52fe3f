// Laws of texts.
ghost use Rattle.std.specs.Prelude.{◌≡◌, ◌++◌, Bool, List, ℕ};
ghost use Rattle.arrival_spec.specs.declared.event.Scripted.{Scripted};
ghost use Rattle.arrival_spec.specs.Settings.{Settings};
ghost use Rattle.text_spec.specs.declared.element.Element.{Element};
ghost use Rattle.run_spec.specs.Work.{Item};
ghost use Rattle.run_spec.specs.Result.{IsText, json_text};
ghost use Rattle.run_spec.specs.View.{view_text};

/// Of what a source gave there is exactly one text.
pub fn an_input_has_one_text()
    ensures some { (settings : Settings) (options : Bool) (table : List Element) (given : List Scripted) → (text : List ℕ) × IsText settings options table given text }
    ensures one { (settings : Settings) (options : Bool) (table : List Element) (given : List Scripted) (text other : List ℕ) → IsText settings options table given text → IsText settings options table given other → text ≡ other }
{}

/// Lines and views grow item by item.
pub fn texts_grow_item_by_item()
    ensures lines { (options : Bool) (table : List Element) (items more : List Item) → json_text options table (items ++ more) ≡ json_text options table items ++ json_text options table more }
    ensures views { (table : List Element) (items more : List Item) → view_text table (items ++ more) ≡ view_text table items ++ view_text table more }
{}
