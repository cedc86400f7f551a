// What a crash leaves in the loose places of a device.
ghost use Rattle.std.specs.Prelude.{◌≡◌, ◌^◌, length};
ghost use Rattle.site.specs.State.{is_loose, is_within};
ghost use Rattle.mem_site.specs.Crash.{next_of, filled, number_at, octet_at, scattered, drawn};
ghost use Rattle.mem_site.specs.History.{ranges_of, range_of};

use crate::change::Span;

fn next(x: u64) -> u64
    ensures { result ≡ next_of x }
{
    x.wrapping_mul(6_364_136_223_846_793_005)
        .wrapping_add(1_442_695_040_888_963_407)
}

fn fill(seed: u64, x: u64, octet: u8) -> u8
    ensures { result ≡ filled seed x octet }
{
    match seed {
        0 => octet,
        1 => 0,
        2 => 0xA5,
        _ => (x >> 56) as u8,
    }
}

fn holds(span: &Span, place: u64) -> bool
    ensures { result ≡ is_within (range_of span.now) place }
{
    span.at <= place && place - span.at < span.len
}

fn stands_loose(spans: &[Span], place: u64) -> bool
    ensures { result ≡ is_loose (ranges_of spans.now) place }
{
    let mut found = false;
    for span in spans {
        found = holds(span, place) || found;
    }
    found
}

// The generator's next number where a place is loose.
fn draw(loose: bool, x: u64) -> u64
    ensures { result ≡ number_at loose x }
{
    if loose { next(x) } else { x }
}

fn left(loose: bool, seed: u64, x: u64, octet: u8) -> u8
    ensures { result ≡ octet_at loose seed x octet }
{
    if loose { fill(seed, x, octet) } else { octet }
}

/// Puts into each loose place what the seed says, and answers where the generator stands then.
pub fn scatter(content: &mut [u8], spans: &[Span], seed: u64, x: u64) -> u64
    ensures content { content.new ≡ scattered seed (ranges_of spans.now) 0 x content.old }
    ensures drawn { result ≡ drawn (ranges_of spans.now) 0 x content.old }
{
    if spans.is_empty() {
        return x;
    }
    let mut at = x;
    for place in 0..content.len() {
        let loose = stands_loose(spans, place as u64);
        at = draw(loose, at);
        content[place] = left(loose, seed, at, content[place]);
    }
    at
}
