use spoc_base::Span;

/// A word of a source: where it stands, and its bytes. Of a word that has a kind, as
/// `network:n1`, it is the name alone, without the kind and the colon.
#[derive(Clone, Copy)]
pub struct Word<'a> {
    pub span: Span,
    pub text: &'a [u8],
}

/// The interface of a router at a network, as it is named in `interface:r1.n1`.
#[derive(Clone, Copy)]
pub struct PortName<'a> {
    pub router: Word<'a>,
    pub net: Word<'a>,
}
