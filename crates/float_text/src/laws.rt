//! What holds of all floats. The function does nothing: it has a contract for a proof to cite.
ghost use Rattle.float_text.specs.ReadBack.{TextsReadBack};

/// The text of each finite float says a number whose nearest float is that one, with its sign.
pub fn texts_read_back()
    ensures { TextsReadBack }
{}
