// Numbers of the wire format, for the code. The definitions say their own: a law ties the two.
ghost use Rattle.std.specs.Prelude.{◌≡◌, ◌<◌, ◌≤◌, ◌+◌, ◌==◌, ◌||◌, [], ◌∷◌, List, ℕ, true, length, nat_lt, not, slice_index};
ghost use Rattle.col_base.specs.declared.base.Kind.TheVariants.{Template, Options};
ghost use Rattle.col_base.specs.Numbers.{be16_at};
ghost use Rattle.wire_spec.specs.declared.field.FieldSpec.{FieldSpec};
ghost use Rattle.wire_spec.specs.Stream.{IsFramed, is_short, message_size};
ghost use Rattle.wire_spec.specs.Message.{defines, front, has_low_id, set_id, specifier_size};
ghost use Rattle.wire_spec.specs.Places.{record_place, set_place};
ghost use Rattle.wire_spec.specs.Record.{IsLongForm, IsShortForm};
ghost use Rattle.wire_spec.specs.Size.{are_fixed};

/// The version in a message's header (RFC 7011, section 3.1).
pub const VERSION: u16 = 10;

/// The octets of a message's header, the fewest of a message (section 3.1).
pub const MESSAGE_HEADER: usize = 16;

/// The octets of a message's header up to the end of its Length (section 3.1).
pub const HEADER_TO_LENGTH: usize = 4;

/// The octets of a set's header, the fewest of a set (section 3.3.2).
pub const SET_HEADER: usize = 4;

/// The ID of the sets of templates (section 3.3.2).
pub const TEMPLATE_SET: u16 = 2;

/// The ID of the sets of options templates (section 3.3.2).
pub const OPTIONS_TEMPLATE_SET: u16 = 3;

/// The lowest ID of templates, and so of data sets (sections 3.3.2 and 3.4.1).
pub const LEAST_TEMPLATE_ID: u16 = 256;

/// The octets of a template record before its specifiers (section 3.4.1).
pub const TEMPLATE_HEADER: usize = 4;

/// The octets of an options template record before its specifiers (section 3.4.2.2).
pub const OPTIONS_TEMPLATE_HEADER: usize = 6;

/// The bit in the first number of a specifier that says that an enterprise number follows (section 3.2).
pub const ENTERPRISE_BIT: u16 = 0x8000;

/// The octets of a specifier without the enterprise bit (section 3.2).
pub const SPECIFIER: usize = 4;

/// The octets of a specifier with the enterprise bit (section 3.2).
pub const ENTERPRISE_SPECIFIER: usize = 8;

/// The length of a field whose values say their own (section 7).
pub const VARIABLE_LENGTH: u16 = 65535;

/// The first octet of a value that says its length in the two octets behind it (section 7).
pub const LONG_LENGTH: u8 = 255;

/// The octets of such a length, with that first octet (section 7).
pub const LONG_LENGTH_OCTETS: usize = 3;

/// The numbers are those of the definitions.
pub fn numbers_are_those_of_the_definitions()
    ensures version { (octets : List ℕ) → IsFramed octets → be16_at 0 octets ≡ VERSION }
    ensures message { set_place [] 0 ≡ MESSAGE_HEADER }
    ensures length { (octets : List ℕ) → is_short octets ≡ (nat_lt (length octets) HEADER_TO_LENGTH || nat_lt (length octets) (message_size octets)) }
    ensures set { record_place [] 0 ≡ SET_HEADER }

    // Kinds of template records.
    ensures templates { (set_id Template ≡ TEMPLATE_SET) × (front Template ≡ TEMPLATE_HEADER) }
    ensures options { (set_id Options ≡ OPTIONS_TEMPLATE_SET) × (front Options ≡ OPTIONS_TEMPLATE_HEADER) }
    ensures ids { (octets : List ℕ) → defines octets ≡ true → has_low_id Template octets ≡ nat_lt (be16_at 0 octets) LEAST_TEMPLATE_ID }

    // Specifiers and values.
    ensures plain { (octets : List ℕ) → be16_at 0 octets < ENTERPRISE_BIT → specifier_size octets ≡ SPECIFIER }
    ensures marked { (octets : List ℕ) → ENTERPRISE_BIT ≤ be16_at 0 octets → specifier_size octets ≡ ENTERPRISE_SPECIFIER }
    ensures varies { (f : FieldSpec) → are_fixed (f ∷ []) ≡ not (f.len == VARIABLE_LENGTH) }
    ensures long { (octets value : List ℕ) → IsLongForm octets value → (slice_index octets 0 ≡ LONG_LENGTH) × (length octets ≡ LONG_LENGTH_OCTETS + length value) }
    ensures short { (octets value : List ℕ) → IsShortForm octets value → slice_index octets 0 < LONG_LENGTH }
{}
