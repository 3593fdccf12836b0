// The version that is spoken, once it is known to be one.

ghost use Rattle.std.specs.Prelude.{◌≡◌, true};
ghost use Rattle.model_text.specs.Version.{is_version};

// What an instance speaks on a connection.
#[derive(Clone, Copy)]
pub struct Protocol {
    pub version: u16,
    ghost known: { is_version version ≡ true },
}
