// The elements with their look-ups.
ghost use Rattle.std.specs.Prelude.{◌≡◌, ◌++◌, ◌∷◌, [], None, option_copied, option_map, IfOk, IfSome, IsTrue, string_bytes};
ghost use Rattle.text_spec.specs.Name.{find_element, printed_name, name_text};
ghost use Rattle.element_spec.specs.Names.{is_prefix, has_name};

use col_base::Text;
use indexmap::IndexMap;
use std::alloc::{AllocError, Global};
use std::collections::BTreeSet;
use std::marker::Model;
use text_spec::Element;

/// An element, and its prefix, a colon and its name as they are printed.
#[derive(Drop)]
struct Row {
    element: Element,
    printed: Text,
}

impl Clone for Row {
    ghost is_clone = { λ s t. t ≡ s };

    fn clone(&self) -> Result<Row, AllocError> {
        Ok(Row {
            element: self.element.clone()?,
            printed: self.printed.clone()?,
        })
    }
}

/// Information elements, which contracts see as the list of their rows, the first one first.
#[derive(Drop)]
pub struct Elements {
    rows: IndexMap<(u32, u16), Row>,
    names: BTreeSet<String>,
}

impl Model for Elements {
    ghost use Rattle.std.specs.Prelude.{List};
    ghost use Rattle.text_spec.specs.declared.element.Element.{Element};
    ghost use Rattle.element_table.specs.Keyed.{rows_in, AreKeyed, AreNames};

    ghost Value = { List Element };

    ghost view = { λ t. rows_in t.rows.entries };

    ghost invariant = { λ t. AreKeyed t.rows.entries × AreNames t.names (rows_in t.rows.entries) };
}

impl Elements {
    /// No elements. It takes no memory.
    pub(crate) fn new(alloc: Global) -> Elements
        ensures { result ≡ [] }
    {
        Elements {
            rows: IndexMap::new(alloc),
            names: BTreeSet::new(alloc),
        }
    }

    fn row(&self, pen: u32, id: u16) -> Option<&Row>
        ensures element { option_map (λ row. row.now.element) result ≡ find_element pen id self.now }
        ensures printed { option_map (λ row. row.now.printed) result ≡ option_map printed_name (find_element pen id self.now) }
    {
        self.rows.get(&(pen, id))
    }

    /// The element with the enterprise number and the ID. It takes no memory.
    pub fn find(&self, pen: u32, id: u16) -> Option<&Element>
        ensures { option_copied result ≡ find_element pen id self.now }
    {
        match self.row(pen, id) {
            Some(row) => Some(&row.element),
            None => None,
        }
    }

    /// The printed name of the element with the enterprise number and the ID, if it has a row. It takes no
    /// memory.
    pub fn printed(&self, pen: u32, id: u16) -> Option<&str>
        ensures value { option_copied result ≡ option_map printed_name (find_element pen id self.now) }
        ensures name { IfSome result (λ text. text.now ≡ name_text self.now pen id) }
    {
        match self.row(pen, id) {
            Some(row) => Some(row.printed.as_str()),
            None => None,
        }
    }

    /// Whether a row has the element's prefix and name, which are given as they are printed.
    pub(crate) fn has_name(&self, element: &Element, printed: &str) -> bool
        requires form { IsTrue (is_prefix element.now.prefix) }
        requires name { printed.now ≡ printed_name element.now }
        ensures { result ≡ has_name element.now.prefix element.now.name self.now }
    {
        self.names.contains(printed)
    }

    /// The table with one more row, given with its printed name.
    pub(crate) fn with_row(self, element: Element, printed: String) -> Result<Elements, AllocError>
        requires fresh { find_element element.pen element.id self ≡ None }
        requires form { IsTrue (is_prefix element.prefix) }
        requires name { string_bytes printed ≡ printed_name element }
        ensures { IfOk result (λ made. made ≡ self ++ element ∷ []) }
    {
        let Elements {
            mut rows,
            mut names,
        } = self;
        let word = printed.clone()?;
        let row = Row {
            element,
            printed: Text::from_string(printed),
        };
        match rows.insert((row.element.pen, row.element.id), row) {
            Ok(_) => {}
            Err(_) => return Err(AllocError),
        }
        match names.insert(word) {
            Ok(_) => {}
            Err(_) => return Err(AllocError),
        }
        Ok(Elements { rows, names })
    }
}

impl Clone for Elements {
    ghost is_clone = { λ s t. t ≡ s };

    fn clone(&self) -> Result<Elements, AllocError> {
        let rows = self.rows.clone()?;
        let names = self.names.clone()?;
        Ok(Elements { rows, names })
    }
}
