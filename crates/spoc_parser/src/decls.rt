ghost use Rattle.std.specs.Prelude.{◌≡◌, ◌<◌, ◌≤◌, OnOk, IfOk, ℕ, [], ◌∷◌, true, false, length, codes};
ghost use Rattle.std.specs.List.{AllZip};
ghost use Rattle.spoc_parser.specs.Readers.{at_sign, read_until, read_unless, read_listed, read_port, read_further, read_word, never_ends, list_ends};
ghost use Rattle.spoc_parser.specs.Reading.{read_set_in, read_side, read_action, read_rule, read_rules, read_network, read_router, read_area, read_aggregate, read_group, read_protocol, read_protogroup, read_restriction, read_service, read_decl_in};
ghost use Rattle.spoc_parser.specs.Seen.{toks_of, Gives, IsPort, IsPerhaps, IsSetIn};
ghost use Rattle.spoc_parser.specs.SeenParts.{AreWords, IsRule, IsDecl};

use crate::cursor::{Cursor, Source};
use crate::fail::Stop;
use crate::forms::Form;
use crate::lists::End;
use crate::terms::Scope;
use bumpalo::collections::into_bump_slice;
use spoc_ast::{Decl, PortName, RuleTree, SetTree, Word};

impl<'a> Source<'a> {
    // A set outside brackets, where `user` may stand or not.
    fn objects(
        self,
        tokens: &mut Cursor<'a, '_>,
        user: bool,
        depth: u8,
    ) -> Result<SetTree<'a>, Stop>
        ensures gives { Gives (IsSetIn self.entry.file depth) result (toks_of tokens.new.rest.now) (read_set_in user depth false (toks_of tokens.old.rest.now)) }
        ensures shorter { OnOk result (length tokens.new.rest.now < length tokens.old.rest.now) }
    {
        self.set(tokens, Scope { user, area: false }, depth)
    }

    // A word that is set to a set.
    fn side(
        self,
        tokens: &mut Cursor<'a, '_>,
        name: &[u8],
        user: bool,
        depth: u8,
    ) -> Result<SetTree<'a>, Stop>
        ensures gives { Gives (IsSetIn self.entry.file depth) result (toks_of tokens.new.rest.now) (read_side name.now (read_set_in user depth false) (toks_of tokens.old.rest.now)) }
        ensures shorter { OnOk result (length tokens.new.rest.now < length tokens.old.rest.now) }
    {
        tokens.key(name)?;
        tokens.sign(b"=")?;
        let set = self.objects(tokens, user, depth)?;
        tokens.sign(b";")?;
        Ok(set)
    }

    // `deny` or `permit`: whether a rule denies.
    fn action(self, tokens: &mut Cursor<'a, '_>) -> Result<bool, Stop>
        ensures gives { Gives (λ a x. x ≡ a) result (toks_of tokens.new.rest.now) (read_action (toks_of tokens.old.rest.now)) }
        ensures shorter { OnOk result (length tokens.new.rest.now < length tokens.old.rest.now) }
    {
        if tokens.take_key(b"deny") {
            return Ok(true);
        }
        tokens.key(b"permit")?;
        Ok(false)
    }

    // A rule.
    fn rule(self, tokens: &mut Cursor<'a, '_>, depth: u8) -> Result<RuleTree<'a>, Stop>
        ensures gives { Gives (IsRule self.entry.file (IsSetIn self.entry.file depth)) result (toks_of tokens.new.rest.now) (read_rule (read_set_in true depth false) (toks_of tokens.old.rest.now)) }
        ensures shorter { OnOk result (length tokens.new.rest.now < length tokens.old.rest.now) }
    {
        let deny = self.action(tokens)?;
        let src = self.side(tokens, b"src", true, depth)?;
        let dst = self.side(tokens, b"dst", true, depth)?;
        tokens.key(b"prt")?;
        let prts = self.prts(tokens)?;
        Ok(RuleTree {
            deny,
            src,
            dst,
            prts,
        })
    }

    // The rules up to `}`.
    fn rule_run(self, tokens: &mut Cursor<'a, '_>, depth: u8) -> Result<&'a [RuleTree<'a>], Stop>
        ensures gives { Gives (λ xs ys. AllZip (IsRule self.entry.file (IsSetIn self.entry.file depth)) xs ys.now) result (toks_of tokens.new.rest.now) (read_until (at_sign (codes "}")) (read_rule (read_set_in true depth false)) (toks_of tokens.old.rest.now)) }
        ensures no_longer { OnOk result (length tokens.new.rest.now ≤ length tokens.old.rest.now) }
    {
        let mut found = Vec::new(self.arena);
        while !tokens.at_sign(b"}") {
            let rule = self.rule(tokens, depth)?;
            found.push(rule)?;
        }
        Ok(into_bump_slice(found))
    }

    // One or more rules, and `}`.
    fn rules(self, tokens: &mut Cursor<'a, '_>, depth: u8) -> Result<&'a [RuleTree<'a>], Stop>
        ensures gives { Gives (λ xs ys. AllZip (IsRule self.entry.file (IsSetIn self.entry.file depth)) xs ys.now) result (toks_of tokens.new.rest.now) (read_rules (read_set_in true depth false) (toks_of tokens.old.rest.now)) }
        ensures shorter { OnOk result (length tokens.new.rest.now < length tokens.old.rest.now) }
    {
        if tokens.at_sign(b"}") {
            return Err(Stop::Unread);
        }
        let rules = self.rule_run(tokens, depth)?;
        tokens.sign(b"}")?;
        Ok(rules)
    }

    // A network.
    fn network(self, tokens: &mut Cursor<'a, '_>) -> Result<Decl<'a>, Stop>
        ensures gives { (depth : ℕ) → Gives (IsDecl self.entry.file (IsSetIn self.entry.file depth)) result (toks_of tokens.new.rest.now) (read_network (toks_of tokens.old.rest.now)) }
        ensures shorter { OnOk result (length tokens.new.rest.now < length tokens.old.rest.now) }
    {
        let name = self.named(tokens, b"network:")?;
        let desc = self.opening(tokens)?;
        let parts = self.parts(tokens)?;
        Ok(Decl::Network { name, desc, parts })
    }

    // A router.
    fn router(self, tokens: &mut Cursor<'a, '_>) -> Result<Decl<'a>, Stop>
        ensures gives { (depth : ℕ) → Gives (IsDecl self.entry.file (IsSetIn self.entry.file depth)) result (toks_of tokens.new.rest.now) (read_router (toks_of tokens.old.rest.now)) }
        ensures shorter { OnOk result (length tokens.new.rest.now < length tokens.old.rest.now) }
    {
        let name = self.named(tokens, b"router:")?;
        let desc = self.opening(tokens)?;
        let parts = self.parts(tokens)?;
        Ok(Decl::Router { name, desc, parts })
    }

    // An area.
    fn area(self, tokens: &mut Cursor<'a, '_>) -> Result<Decl<'a>, Stop>
        ensures gives { (depth : ℕ) → Gives (IsDecl self.entry.file (IsSetIn self.entry.file depth)) result (toks_of tokens.new.rest.now) (read_area (toks_of tokens.old.rest.now)) }
        ensures shorter { OnOk result (length tokens.new.rest.now < length tokens.old.rest.now) }
    {
        let name = self.named(tokens, b"area:")?;
        let desc = self.opening(tokens)?;
        let parts = self.parts(tokens)?;
        Ok(Decl::Area { name, desc, parts })
    }

    // An aggregate.
    fn aggregate(self, tokens: &mut Cursor<'a, '_>) -> Result<Decl<'a>, Stop>
        ensures gives { (depth : ℕ) → Gives (IsDecl self.entry.file (IsSetIn self.entry.file depth)) result (toks_of tokens.new.rest.now) (read_aggregate (toks_of tokens.old.rest.now)) }
        ensures shorter { OnOk result (length tokens.new.rest.now < length tokens.old.rest.now) }
    {
        let name = self.named(tokens, b"any:")?;
        let desc = self.opening(tokens)?;
        let parts = self.parts(tokens)?;
        Ok(Decl::Aggregate { name, desc, parts })
    }

    // A set, where `;` does not come next.
    fn group_objects(
        self,
        tokens: &mut Cursor<'a, '_>,
        depth: u8,
    ) -> Result<Option<SetTree<'a>>, Stop>
        ensures gives { Gives (IsPerhaps (IsSetIn self.entry.file depth)) result (toks_of tokens.new.rest.now) (read_unless (at_sign (codes ";")) (read_set_in false depth false) (toks_of tokens.old.rest.now)) }
        ensures no_longer { OnOk result (length tokens.new.rest.now ≤ length tokens.old.rest.now) }
    {
        if tokens.at_sign(b";") {
            return Ok(None);
        }
        let set = self.objects(tokens, false, depth)?;
        Ok(Some(set))
    }

    // A group.
    fn group(self, tokens: &mut Cursor<'a, '_>, depth: u8) -> Result<Decl<'a>, Stop>
        ensures gives { Gives (IsDecl self.entry.file (IsSetIn self.entry.file depth)) result (toks_of tokens.new.rest.now) (read_group (read_set_in false depth false) (toks_of tokens.old.rest.now)) }
        ensures shorter { OnOk result (length tokens.new.rest.now < length tokens.old.rest.now) }
    {
        let name = self.named(tokens, b"group:")?;
        tokens.sign(b"=")?;
        let desc = self.description(tokens)?;
        let objects = self.group_objects(tokens, depth)?;
        tokens.sign(b";")?;
        Ok(Decl::Group {
            name,
            desc,
            objects,
        })
    }

    // The words behind each comma of a protocol.
    fn notes(self, tokens: &mut Cursor<'a, '_>) -> Result<&'a [Word<'a>], Stop>
        ensures gives { Gives (λ xs ys. AreWords self.entry.file xs ys.now) result (toks_of tokens.new.rest.now) (read_further never_ends (read_word Form.Note) (toks_of tokens.old.rest.now)) }
        ensures no_longer { OnOk result (length tokens.new.rest.now ≤ length tokens.old.rest.now) }
    {
        self.more_words(tokens, Form::Note, Vec::new(self.arena))
    }

    // A protocol.
    fn protocol(self, tokens: &mut Cursor<'a, '_>) -> Result<Decl<'a>, Stop>
        ensures gives { (depth : ℕ) → Gives (IsDecl self.entry.file (IsSetIn self.entry.file depth)) result (toks_of tokens.new.rest.now) (read_protocol (toks_of tokens.old.rest.now)) }
        ensures shorter { OnOk result (length tokens.new.rest.now < length tokens.old.rest.now) }
    {
        let name = self.named(tokens, b"protocol:")?;
        tokens.sign(b"=")?;
        let simple = self.proto(tokens)?;
        let notes = self.notes(tokens)?;
        tokens.sign(b";")?;
        Ok(Decl::Protocol {
            name,
            simple,
            notes,
        })
    }

    // A protocol group.
    fn protogroup(self, tokens: &mut Cursor<'a, '_>) -> Result<Decl<'a>, Stop>
        ensures gives { (depth : ℕ) → Gives (IsDecl self.entry.file (IsSetIn self.entry.file depth)) result (toks_of tokens.new.rest.now) (read_protogroup (toks_of tokens.old.rest.now)) }
        ensures shorter { OnOk result (length tokens.new.rest.now < length tokens.old.rest.now) }
    {
        let name = self.named(tokens, b"protocolgroup:")?;
        let prts = self.prts(tokens)?;
        Ok(Decl::ProtocolGroup { name, prts })
    }

    // One or more interfaces with commas between them, and perhaps one behind them.
    fn open_ports(self, tokens: &mut Cursor<'a, '_>) -> Result<&'a [PortName<'a>], Stop>
        ensures gives { Gives (λ xs ys. AllZip (IsPort self.entry.file) xs ys.now) result (toks_of tokens.new.rest.now) (read_listed list_ends read_port (toks_of tokens.old.rest.now)) }
        ensures shorter { OnOk result (length tokens.new.rest.now < length tokens.old.rest.now) }
    {
        self.listed(tokens, true)
    }

    // A restriction of paths.
    fn restriction(self, tokens: &mut Cursor<'a, '_>) -> Result<Decl<'a>, Stop>
        ensures gives { (depth : ℕ) → Gives (IsDecl self.entry.file (IsSetIn self.entry.file depth)) result (toks_of tokens.new.rest.now) (read_restriction (toks_of tokens.old.rest.now)) }
        ensures shorter { OnOk result (length tokens.new.rest.now < length tokens.old.rest.now) }
    {
        let name = self.named(tokens, b"pathrestriction:")?;
        tokens.sign(b"=")?;
        let desc = self.description(tokens)?;
        let ports = self.open_ports(tokens)?;
        tokens.sign(b";")?;
        Ok(Decl::Restriction { name, desc, ports })
    }

    // A service.
    fn service(self, tokens: &mut Cursor<'a, '_>, depth: u8) -> Result<Decl<'a>, Stop>
        ensures gives { Gives (IsDecl self.entry.file (IsSetIn self.entry.file depth)) result (toks_of tokens.new.rest.now) (read_service (read_set_in false depth false) (read_set_in true depth false) (toks_of tokens.old.rest.now)) }
        ensures shorter { OnOk result (length tokens.new.rest.now < length tokens.old.rest.now) }
    {
        let name = self.named(tokens, b"service:")?;
        let desc = self.opening(tokens)?;
        let idle = self.until(tokens, End::Idle)?;
        let user = self.side(tokens, b"user", false, depth)?;
        let rules = self.rules(tokens, depth)?;
        Ok(Decl::Service {
            name,
            desc,
            idle,
            user,
            rules,
        })
    }

    // A declaration, in which sets have so many levels at most.
    pub fn decl(self, tokens: &mut Cursor<'a, '_>, depth: u8) -> Result<Decl<'a>, Stop>
        ensures gives { Gives (IsDecl self.entry.file (IsSetIn self.entry.file depth)) result (toks_of tokens.new.rest.now) (read_decl_in depth (toks_of tokens.old.rest.now)) }
        ensures shorter { OnOk result (length tokens.new.rest.now < length tokens.old.rest.now) }
    {
        if tokens.at_kind(b"network:") {
            return self.network(tokens);
        }
        if tokens.at_kind(b"router:") {
            return self.router(tokens);
        }
        if tokens.at_kind(b"group:") {
            return self.group(tokens, depth);
        }
        if tokens.at_kind(b"area:") {
            return self.area(tokens);
        }
        if tokens.at_kind(b"any:") {
            return self.aggregate(tokens);
        }
        if tokens.at_kind(b"protocol:") {
            return self.protocol(tokens);
        }
        if tokens.at_kind(b"protocolgroup:") {
            return self.protogroup(tokens);
        }
        if tokens.at_kind(b"pathrestriction:") {
            return self.restriction(tokens);
        }
        self.service(tokens, depth)
    }
}
