// What the definitions say of items behind all intermediates.
ghost use Rattle.std.specs.Prelude.{◌≡◌, ◌++◌, [], List};
ghost use Rattle.config_spec.specs.declared.conf.StageConf.{StageConf};
ghost use Rattle.run_spec.specs.Work.{Item};
ghost use Rattle.result_spec.specs.Through.{items_through};

/// Items go through the intermediates one by one: what came before an item doesn't change what is left of it.
pub fn items_go_one_by_one()
    ensures none { (stages : List StageConf) → items_through stages [] ≡ [] }
    ensures more { (stages : List StageConf) (items more : List Item) → items_through stages (items ++ more) ≡ items_through stages items ++ items_through stages more }
{}
