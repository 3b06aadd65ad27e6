//! That each policy has a meaning, and how it is found: its zones, its views and its areas as functions of what it declares. With the laws of `policy_model`
//! a policy has just one meaning, so that what the functions of `specs/Tables` give is what the relations of `policy_model` tell.
//! The functions here do nothing: each has a law as its contract.
#![tactic(auto)]

ghost use Rattle.std.specs.Prelude.{ℕ, List};
ghost use Rattle.policy_model.specs.Policy.{Policy};
ghost use Rattle.policy_model.specs.Zones.{Site, AreZones};
ghost use Rattle.policy_model.specs.Tags.{Views, AreViews};
ghost use Rattle.policy_model.specs.Objects.{AreAreas};
ghost use Rattle.policy_model.specs.Headline.{Meaning, IsMeaning};
ghost use Rattle.meaning_laws.specs.Tables.{zones_of, views_of, areas_of, meaning_of};

/// The zones that are counted by their least networks are the policy's.
pub fn zones_are_found()
    ensures { (p : Policy) → AreZones p (zones_of p) }
{}

/// The views that are found by looking for chains are the site's.
pub fn views_are_found()
    ensures { (s : Site) → AreViews s (views_of s) }
{}

/// The areas that are found so are the site's.
pub fn areas_are_found()
    ensures { (s : Site) → AreAreas s (areas_of s) }
{}

/// So the meaning that is found is the policy's.
pub fn meanings_are_found()
    ensures { (p : Policy) → IsMeaning p (meaning_of p) }
{}

/// Each policy has its table of zones.
pub fn zones_are_there()
    ensures { (p : Policy) → (zones : List ℕ) × AreZones p zones }
{}

/// Each site has its table of views.
pub fn views_are_there()
    ensures { (s : Site) → (v : Views) × AreViews s v }
{}

/// Each site has its table of areas.
pub fn areas_are_there()
    ensures { (s : Site) → (areas : List (List ℕ)) × AreAreas s areas }
{}

/// So each policy has a meaning.
pub fn every_policy_has_a_meaning()
    ensures { (p : Policy) → (m : Meaning) × IsMeaning p m }
{}
