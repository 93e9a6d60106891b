//! The words of links.
ghost use Rattle.std.specs.Prelude.{◌≡◌};
ghost use Rattle.fab_files_looks.specs.Words as words;

use fab_looks::Link;

/// The word of a link, as JSON names it.
pub fn link_word(link: Link) -> &'static str
    ensures { result.now ≡ words.link_word link }
{
    match link {
        Link::Host => "host",
        Link::Login => "login",
        Link::Volume => "volume",
        Link::Mapped => "mapped",
        Link::Served => "served",
        Link::Exposed => "exposed",
        Link::Met => "met",
        Link::Joined => "joined",
    }
}

/// What it means that a link is the first that is missing, in words.
#[tactic(auto, unfolding(crate::specs::Words::missing_words))]
pub fn missing_words(link: Link) -> &'static str
    ensures { result.now ≡ words.missing_words link }
{
    match link {
        Link::Host => "there is no such host, or it is not yours",
        Link::Login => "no port of the host is logged in",
        Link::Volume => "there is no such volume, or it is not yours",
        Link::Mapped => "no storage group maps the volume",
        Link::Served => "no storage group that maps the volume has the host",
        Link::Exposed => "no storage group that maps the volume and has the host is exposed",
        Link::Met => "no target of those storage groups is logged in where a port of the host is",
        Link::Joined =>
            "no port of the host is in a zone with a target, and no default zone joins them",
    }
}
