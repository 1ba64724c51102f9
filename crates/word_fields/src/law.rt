// What a reader of a packed word knows of its fields.

ghost use Rattle.std.specs.Prelude.{ℕ, ◌+◌, ◌<◌, ◌^◌, ◌≡◌, ◌≤◌, ◌⊎◌};
ghost use Rattle.word_fields.specs.Fields.{field, with_field};

/// Of fields anywhere: one that is set has its new value, and one that shares no bit with it is as before. A value of any
/// field is below its power of two.
pub fn fields_stand_apart()
    ensures same { (at bits word value : ℕ) → value < 2 ^ bits → field at bits (with_field at bits word value) ≡ value }
    ensures apart { (at bits word value other size : ℕ) → value < 2 ^ bits → (other + size ≤ at) ⊎ (at + bits ≤ other) → field other size (with_field at bits word value) ≡ field other size word }
    ensures below { (at bits word : ℕ) → field at bits word < 2 ^ bits }
{}
