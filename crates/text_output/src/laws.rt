// What the definitions say of the text of an output.
ghost use Rattle.std.specs.Prelude.{◌≡◌, ◌++◌, ◌∷◌, [], List, None};
ghost use Rattle.std.specs.List.{flat_map};
ghost use Rattle.config_spec.specs.declared.conf.OutputConf.{OutputConf};
ghost use Rattle.text_spec.specs.declared.element.Element.{Element};
ghost use Rattle.run_spec.specs.Work.{Item};
ghost use Rattle.message_texts.specs.Puts.{text_at};
ghost use Rattle.text_forms.specs.Kind.{text_kind};

/// The text of an output of JSON or of a listing is that of each item, one after another: what came before an item doesn't
/// change its text.
pub fn texts_go_item_by_item()
    ensures each { (table : List Element) (output : OutputConf) → (text_kind output.kind ≡ None → ⊥)
        → (items : List Item) → text_at table output items ≡ flat_map (λ i. text_at table output (i ∷ [])) items }
    ensures more { (table : List Element) (output : OutputConf) → (text_kind output.kind ≡ None → ⊥)
        → (items more : List Item) → text_at table output (items ++ more) ≡ text_at table output items ++ text_at table output more }
{}
