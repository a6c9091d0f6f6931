//! Drawings of scripts through the program. What is expected was worked out by hand from the measures of a drawing and
//! the rules of acts.
use sat_outside::CleanSink;
use sat_top::still_in_memory;
use std::alloc::Global;
use std::test::Fail;

const PLAIN: &str =
    "saturn 1\nsites 2\ngears 1\nitem x 0,1\nclient a 0\nclient b 1\nplan tree - / 0 0\nbegin\nwrite a x <&>\"'\ngather 0\nemit 0\nhop 1 s0 z0\nturn 1\nbulk 0 0 1\nturn 1\nread b x\nend\n";

// Four columns: what is outside at 204, and s0, z0, s1 from 262 on, 120 apart. The rows begin at 112 + (26 + 50) + 50,
// and are 22 apart. The answers stand 62 behind the last column. All ways of one label have one class.
const PLAIN_LINES: &str =
    "<svg xmlns='http://www.w3.org/2000/svg' viewBox='0 0 844 464' width='844' height='464' role='img' aria-labelledby='t'>
<title id='t'>A run of Saturn: 8 acts, 2 sites, 2 clients</title>
<text class='title' x='8' y='22'>A run of Saturn: 8 acts, 2 sites, 2 clients</text>
<line class='edge' x1='502' y1='158' x2='382' y2='132'/>
<circle class='done' cx='262' cy='238' r='4'><title>write a x &lt;&amp;&gt;&quot;&#39;
<text class='act' x='8' y='242'>write a x &lt;&amp;&gt;&quot;&#39;</text>
<text class='said' x='564' y='242'>1 wrote 1.0.0
<style>svg:has(.w1-0-0-0:hover) .w1-0-0-0{stroke-width:4}</style>
<line class='sink w1-0-0-0' x1='262' y1='238' x2='262' y2='282'><title>in its sink: 1.0.0</title></line>
<line class='label w1-0-0-0' x1='262' y1='282' x2='382' y2='304'><title>update 1.0.0</title></line>
<circle class='refused' cx='502' cy='326' r='4'><title>turn 1
<text class='denied' x='564' y='330'>5 refused NoPayload 1.0.0
<line class='payload w1-0-0-0' x1='262' y1='238' x2='502' y2='348'><title>payload of 1.0.0</title></line>
<line class='label w1-0-0-0' x1='382' y1='304' x2='502' y2='370'><title>update 1.0.0</title></line>
<line class='store w1-0-0-0' x1='502' y1='348' x2='502' y2='370'><title>waits: 1.0.0</title></line>
<text class='said' x='564' y='396'>8 read 1.0.0 &lt;&amp;&gt;&quot;&#39;
<text class='act' x='8' y='396'>read b x</text>
";

const ASIDE: &str =
    "saturn 1\nsites 3\ngears 1\nitem x 0,1,2\nclient a 0\nplan tree - 0 / 0 1 1\nplan stamp\nbegin\ntick 1 0 5\nbeat 0 2\nbeatin 0 2 0\nbeatin 0 2 0\nkill 1 z1\nhop 1 z0 z1\nleave a\nread a x\nclock\nattach a 2\nread a x\nend\n";

// Six columns: what is outside, s0, s1, z0 and z1 of epoch 1, s2. The rows begin at 112 + (52 + 50) + 50 + 50.
const ASIDE_LINES: &str =
    "<svg xmlns='http://www.w3.org/2000/svg' viewBox='0 0 1084 606' width='1084' height='606' role='img' aria-labelledby='t'>
<title id='t'>A run of Saturn: 11 acts, 3 sites, 1 client</title>
<text class='epoch' x='8' y='136'>epoch 1</text>
<line class='edge' x1='622' y1='158' x2='502' y2='132'/>
<line class='edge' x1='262' y1='184' x2='502' y2='132'/>
<line class='edge' x1='742' y1='184' x2='622' y2='158'/>
<text class='epoch' x='8' y='238'>epoch 2: by timestamps, without a tree</text>
<text class='name' x='622' y='284'>z1 of epoch 1</text>
<line class='lane' x1='622' y1='290' x2='622' y2='556'/>
<text class='name' x='622' y='574'>z1 of epoch 1</text>
<circle class='done' cx='382' cy='314' r='4'>
<line class='beat w0-0-0-4' x1='262' y1='336' x2='742' y2='358'><title>beat 0</title></line>
<circle class='refused' cx='742' cy='380' r='4'>
<text class='denied' x='804' y='384'>4 old
<circle class='done' cx='622' cy='402' r='4'>
<line class='dead' x1='615' y1='395' x2='629' y2='409'/>
<line class='dead' x1='615' y1='409' x2='629' y2='395'/>
<circle class='refused' cx='622' cy='424' r='4'>
<text class='act' x='8' y='428'>hop 1 z0 z1</text>
<circle class='done' cx='262' cy='446' r='4'>
<circle class='refused' cx='204' cy='468' r='4'>
<line class='rule' x1='204' y1='490' x2='742' y2='490'/>
<circle class='done' cx='742' cy='512' r='4'>
<line class='seat away w0-0-0-5' x1='262' y1='446' x2='742' y2='512'><title>on its way: client 0</title></line>
<line class='seat w0-0-0-5' x1='742' y1='512' x2='742' y2='534'><title>client 0</title></line>
<circle class='done' cx='742' cy='534' r='4'>
<text class='said' x='804' y='538'>11 read none
";

const LOST: &str =
    "saturn 1\nsites 2\ngears 1\nitem x 0,1\nclient a 0\nplan tree - / 0 0\nbegin\nwrite a x aaaaaaaaaaaaaaaaaabbbb\ngather 0\nemit 0\nkill 1 z0\nhop 1 s0 z0\nend\n";

// The label went from s0 and was never taken, and of a long text the front is shown.
const LOST_LINES: &str =
    "<svg xmlns='http://www.w3.org/2000/svg' viewBox='0 0 844 398' width='844' height='398' role='img' aria-labelledby='t'>
<text class='act' x='8' y='242'><title>write a x aaaaaaaaaaaaaaaaaabbbb</title>write a x aaaaaaaaaaaaaaaaa…</text>
<line class='sink w1-0-0-0' x1='262' y1='238' x2='262' y2='282'><title>in its sink: 1.0.0</title></line>
<line class='label lost w1-0-0-0' x1='262' y1='282' x2='302' y2='293'><title>never taken: 1.0.0</title></line>
<line class='dead' x1='375' y1='297' x2='389' y2='311'/>
<circle class='refused' cx='382' cy='326' r='4'>
";

const MOVED: &str =
    "saturn 1\nsites 2\ngears 1\nitem x 0,1\nclient a 0\nplan tree - / 0 0\nbegin\nwrite a x v\nsettle\nend\n";

// The settle's row is at 260. Its first move is a bulk, the second one a hop, from 10 pixels above on.
const MOVED_LINES: &str =
    "<svg xmlns='http://www.w3.org/2000/svg' viewBox='0 0 844 332' width='844' height='332' role='img' aria-labelledby='t'>
<line class='payload small w1-0-0-0' x1='262' y1='250' x2='502' y2='252'><title>payload of 1.0.0</title></line>
<line class='label small w1-0-0-0' x1='262' y1='252' x2='382' y2='254'><title>update 1.0.0</title></line>
<line class='label small w1-0-0-0' x1='382' y1='252' x2='502' y2='254'><title>update 1.0.0</title></line>
<line class='rule' x1='204' y1='260' x2='502' y2='260'/>
";

// Twenty-one writes are as many bulks and as many hops: forty of these are drawn, and the next one is told of. The
// settle's row is the 22nd, at 238 + 21 * 22.
const MANY: &str =
    "saturn 1\nsites 2\ngears 1\nitem x 0,1\nclient a 0\nplan tree - / 0 0\nbegin\nwrite a x v\nwrite a x v\nwrite a x v\nwrite a x v\nwrite a x v\nwrite a x v\nwrite a x v\nwrite a x v\nwrite a x v\nwrite a x v\nwrite a x v\nwrite a x v\nwrite a x v\nwrite a x v\nwrite a x v\nwrite a x v\nwrite a x v\nwrite a x v\nwrite a x v\nwrite a x v\nwrite a x v\nsettle\nend\n";

const MANY_LINES: &str = "<text class='epoch' x='694' y='704'>first 40 moves drawn</text>";

// The status and the drawing of a script.
fn drawn(alloc: Global, script: &str) -> Result<(u8, CleanSink), Fail> {
    let mut words = Vec::new(alloc);
    words.push(String::from_str(alloc, "draw")?)?;
    let text = script.as_bytes().to_vec(alloc)?;
    let (status, sink) = still_in_memory(alloc, words.as_slice(), text, 4096, 65_536)?;
    Ok((status, sink))
}

// How many lines of a text begin like this.
fn count(text: &str, start: &str) -> usize {
    let mut found = 0usize;
    for line in text.lines() {
        if line.starts_with(start) {
            found = found.saturating_add(1);
        }
    }
    found
}

// The first of these lines that a text has not just once.
fn missing<'a>(text: &str, lines: &'a str) -> &'a str {
    for line in lines.lines() {
        if count(text, line) != 1 {
            return line;
        }
    }
    "none"
}

#[test]
fn drawings_have_their_lines(rt: HostRuntime) -> Result<(), Fail> {
    for (script, lines, done, refused, lost) in [
        (PLAIN, PLAIN_LINES, 7usize, 1usize, 0usize),
        (ASIDE, ASIDE_LINES, 8usize, 3usize, 0usize),
        (LOST, LOST_LINES, 4usize, 1usize, 1usize),
        (MOVED, MOVED_LINES, 2usize, 0usize, 0usize),
        (MANY, MANY_LINES, 22usize, 0usize, 0usize),
    ] {
        let (status, sink) = drawn(rt.alloc(), script)?;
        assert_eq!(rt; status, 0);
        let text = std::str::from_utf8(sink.held()).unwrap_or("no text");
        assert_eq!(rt; missing(text, lines), "none");
        assert_eq!(rt; count(text, "<circle class='done' cx="), done);
        assert_eq!(rt; count(text, "<circle class='refused' cx="), refused);
        assert_eq!(rt; count(text, "<line class='label lost w"), lost);
    }
    Ok(())
}
