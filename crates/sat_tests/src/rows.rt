//! Scripts, and what the program has to say of them: the acts and their answers by the rules, worked out by hand.

pub const HEADER: &str =
    "saturn 1\nsites 2\ngears 1\nitem x 0,1\nclient a 0\nclient b 1\nplan tree - / 0 0\nbegin\n";

const TWO_GEARS: &str =
    "saturn 1\nsites 2\ngears 2\nitem x 0,1\nitem y 0,1\nclient a 0\nclient b 0\nclient c 1\nplan tree - / 0 0\nbegin\n";

const THREE_CLIENTS: &str =
    "saturn 1\nsites 2\ngears 1\nitem x 0,1\nitem y 0,1\nclient a 0\nclient b 1\nclient c 0\nplan tree - / 0 0\nbegin\n";

const ONE_ITEM_OF_THREE: &str =
    "saturn 1\nsites 3\ngears 1\nitem x 0,1,2\nclient a 0\nplan tree - / 0 0 0\nbegin\n";

// Sites 1 and 3 keep the one item. Serializers 1 and 2 hang on 0.
const PRUNED: &str =
    "saturn 1\nsites 5\ngears 1\nitem x 1,3\nclient a 1\nplan tree - 0 0 / 0 1 1 2 2\nbegin\n";

const CHAIN: &str =
    "saturn 1\nsites 3\ngears 1\nitem p 0,1,2\nitem q 1,2\nclient a 0\nclient b 1\nplan tree - 0 / 0 0 1\nbegin\n";

// Site 1 keeps q and not p, and site 2 keeps both.
const CHAIN_OF_TWO: &str =
    "saturn 1\nsites 3\ngears 1\nitem p 0,2\nitem q 1,2\nclient a 0\nplan tree - 0 / 0 0 1\nbegin\n";

pub const TWO_TREES: &str =
    "saturn 1\nsites 2\ngears 1\nitem x 0,1\nclient a 0\nclient b 1\nplan tree - / 0 0\nplan tree - 0 / 0 1\nbegin\n";

const SAME_TREE_TWICE: &str =
    "saturn 1\nsites 3\ngears 1\nitem x 0,1,2\nitem y 1,2\nclient a 0\nclient b 1\nplan tree - / 0 0 0\nplan tree - / 0 0 0\nbegin\n";

const TREE_THEN_STAMPS: &str =
    "saturn 1\nsites 2\ngears 2\nitem x 0,1\nitem y 0,1\nclient a 0\nclient b 0\nclient c 1\nplan tree - / 0 0\nplan stamp\nplan stamp\nbegin\n";

pub const STAMPS: &str = "saturn 1\nsites 2\ngears 1\nitem x 0,1\nclient a 0\nplan stamp\nbegin\n";

const ONE_SITE: &str = "saturn 1\nsites 1\ngears 1\nplan stamp\nbegin\n";

// The most sites that there may be, all at one serializer.
const SIXTY_FOUR_SITES: &str =
    "saturn 2\nsites 64\ngears 1\nitem x 0,63\nclient a 0\nplan tree - / 0 0 0 0 0 0 0 0 0 0 0 0 0 0 0 0 0 0 0 0 0 0 0 0 0 0 0 0 0 0 0 0 0 0 0 0 0 0 0 0 0 0 0 0 0 0 0 0 0 0 0 0 0 0 0 0 0 0 0 0 0 0 0 0\nbegin\n";

// Two sites that keep both items, which are of two gears.
const GROUPS: &str =
    "saturn 2\nsites 2\ngears 2\nitem x 0,1\nitem y 0,1\nclient a 0\nclient b 0\nclient c 1\nplan tree - / 0 0\nbegin\n";

// Each two of three sites share one item.
const SHARED: &str =
    "saturn 2\nsites 3\ngears 2\nitem x 0,1\nitem y 0,2\nitem z 1,2\nclient a 0\nclient c 2\nplan tree - / 0 0 0\nbegin\n";

// Site 1 keeps the second and the fourth of four items, and there is no tree.
const FOUR_ITEMS: &str =
    "saturn 2\nsites 2\ngears 1\nitem p 0\nitem q 0,1\nitem r 0\nitem s 0,1\nclient a 0\nclient b 1\nplan stamp\nbegin\n";

// Both sites keep both items, and two trees follow one another.
const GROUPS_IN_TWO_TREES: &str =
    "saturn 2\nsites 2\ngears 1\nitem x 0,1\nitem y 0,1\nclient a 0\nclient b 1\nplan tree - / 0 0\nplan tree - 0 / 0 1\nbegin\n";

// Site 1 keeps one item of two.
const PART_AT_SITE_1: &str =
    "saturn 2\nsites 2\ngears 1\nitem x 0\nitem y 0,1\nclient a 0\nplan tree - / 0 0\nbegin\n";

/// A header, acts, and their answers.
pub const ANSWERS: &[(&str, &str, &str)] = &[
    // Nothing is shown at first, and an update is shown once, when its label and its payload have come.
    (
        HEADER,
        "read a x\nwrite a x hello\nbulk 0 0 1\nhop 1 s0 z0\ngather 0\nemit 0\nhop 1 s0 z0\nturn 1\nturn 1\nread b x\nbulk 0 0 1\nend\n",
        "1 read none\n2 wrote 1.0.0\n3 brought x 1.0.0\n4 refused Empty\n5 gathered 1 stable 1\n6 emitted update 1.0.0\n7 hopped update 1.0.0 to s1\n8 shown x 1.0.0\n9 refused Empty\n10 read 1.0.0 hello\n11 refused NoSuch\nholdings\n",
    ),
    (
        HEADER,
        "write a x v\nwrite a x w\nbulk 0 0 1 18446744073709551615\nbulk 0 0 1 1\nbulk 0 0 1\nbulk 0 0 1\nbulk 0 0 1 1\nend\n",
        "1 wrote 1.0.0\n2 wrote 2.0.0\n3 refused NoSuch\n4 brought x 2.0.0\n5 brought x 1.0.0\n6 refused NoSuch\n7 again\nholdings\n",
    ),
    // A group is shown at once: at each site the items of it that the site keeps. It takes all of them to write it.
    (
        SHARED,
        "writes a x X y Y\nwrites a x X z Z\ntick 0 1 1\ngather 0\nemit 0\nhop 1 s0 z0\nbulk 0 0 1\nbulk 0 0 2\nbulk 0 1 2\nturn 1\nturn 2\nread c y\nend\n",
        "1 wrote 1.0.0\n2 refused NotHere\n3 ticked 1\n4 gathered 1 stable 1\n5 emitted update 1.0.0\n6 hopped update 1.0.0 to s1,s2\n7 brought x 1.0.0\n8 brought y 1.0.0\n9 refused NoSuch\n10 shown x 1.0.0\n11 shown y 1.0.0\n12 read 1.0.0 Y\nholdings\n",
    ),
    (
        GROUPS,
        "writes a x 1 y 2\ntick 0 1 1\ngather 0\nemit 0\nhop 1 s0 z0\nbulk 0 0 1\nturn 1\nread c y\nend\n",
        "1 wrote 1.0.0\n2 ticked 1\n3 gathered 1 stable 1\n4 emitted update 1.0.0\n5 hopped update 1.0.0 to s1\n6 brought x,y 1.0.0\n7 shown x,y 1.0.0\n8 read 1.0.0 2\nholdings\n",
    ),
    // Of a group and a single write each item has the greater. Before the group is shown nothing of it is.
    (
        GROUPS,
        "writes a x 1 y 2\nwrite c y 9\nbulk 0 0 1\nread c x\nread c y\ntick 0 1 1\ngather 0\nemit 0\nhop 1 s0 z0\nturn 1\nread c x\nread c y\ntick 1 0 1\ngather 1\nemit 1\nhop 1 s1 z0\nbulk 1 1 0\nturn 0\nread a y\nread a x\nend\n",
        "1 wrote 1.0.0\n2 wrote 1.1.1\n3 brought x,y 1.0.0\n4 read none\n5 read 1.1.1 9\n6 ticked 1\n7 gathered 1 stable 1\n8 emitted update 1.0.0\n9 hopped update 1.0.0 to s1\n10 shown x,y 1.0.0\n11 read 1.0.0 1\n12 read 1.1.1 9\n13 ticked 1\n14 gathered 1 stable 1\n15 emitted update 1.1.1\n16 hopped update 1.1.1 to s0\n17 brought y 1.1.1\n18 shown y 1.1.1\n19 read 1.1.1 9\n20 read 1.0.0 1\nholdings\n",
    ),
    // The gear of the least item stamps a group, behind what the client has seen; the promises of the others stay.
    (
        GROUPS,
        "tick 0 1 7\nwrite b y 5\nread a y\nwrites a x 1 y 2\nwrite b y 6\nread b y\nwrites b x 3 y 4\nread a x\nend\n",
        "1 ticked 7\n2 wrote 8.0.1\n3 read 8.0.1 5\n4 wrote 9.0.0\n5 wrote 9.0.1\n6 read 9.0.1 6\n7 wrote 10.0.0\n8 read 10.0.0 3\nholdings\n",
    ),
    // Four items in timestamp order: the site's are the second and the fourth.
    (
        FOUR_ITEMS,
        "writes a p 1 q 2 r 3 s 4\nwrites a q 5 r 6\nbulk 0 0 1\nbulk 0 0 1\nstamp 1\ngather 0\nemit 0\nemit 0\nbeat 0 1\nbeatin 0 1 0\nread b s\nstamp 1\nread b q\nread b s\nstamp 1\nread b q\nread b s\nread b p\nend\n",
        "1 wrote 1.0.0\n2 wrote 2.0.0\n3 brought q,s 1.0.0\n4 brought q 2.0.0\n5 refused NotYet\n6 gathered 2 stable 2\n7 emitted update 1.0.0\n8 emitted update 2.0.0\n9 beat 0\n10 taken\n11 read none\n12 shown q,s 1.0.0\n13 read 1.0.0 2\n14 read 1.0.0 4\n15 shown q 2.0.0\n16 read 2.0.0 5\n17 read 1.0.0 4\n18 refused NotHere\nholdings\n",
    ),
    // Groups through a switch of trees: the second one, which is early, waits whole.
    (
        GROUPS_IN_TWO_TREES,
        "writes a x 1 y 2\ngather 0\nemit 0\nclose 0\nwrites a x 3 y 4\ngather 0\nemit 0\nhop 2 s0 z0\nhop 2 z0 z1\nbulk 0 0 1 1\nturn 1\nadvance 1\nclose 1\nadvance 1\nhop 1 s0 z0\nhop 1 s0 z0\nbulk 0 0 1 0\nturn 1\nturn 1\nadvance 1\nread b x\nread b y\nturn 1\nread b y\nread b x\nend\n",
        "1 wrote 1.0.0\n2 gathered 1 stable 1\n3 emitted update 1.0.0\n4 closed 1 1.0.65535\n5 wrote 2.0.0\n6 gathered 1 stable 2\n7 emitted update 2.0.0\n8 hopped update 2.0.0 to z1\n9 hopped update 2.0.0 to s1\n10 brought x,y 2.0.0\n11 refused Empty\n12 refused NotClosed\n13 closed 1 0.1.65535\n14 refused NotYet\n15 hopped update 1.0.0 to s1\n16 hopped close 1.0.65535 to s1\n17 brought x,y 1.0.0\n18 shown x,y 1.0.0\n19 took close 1.0.65535\n20 view 2\n21 read 1.0.0 1\n22 read 1.0.0 2\n23 shown x,y 2.0.0\n24 read 2.0.0 4\n25 read 2.0.0 3\nholdings\n",
    ),
    // A group whose tree died is shown by its timestamp, at once too.
    (
        GROUPS_IN_TWO_TREES,
        "writes a x 1 y 2\ngather 0\nemit 0\nkill 1 z0\nhop 1 s0 z0\nclose 0\nclose 1\nfall 1\nbulk 0 0 1\nturn 1\nbeat 0 1\nbeatin 0 1 0\nread b y\nstamp 1\nread b y\nread b x\nadvance 1\nend\n",
        "1 wrote 1.0.0\n2 gathered 1 stable 1\n3 emitted update 1.0.0\n4 killed\n5 refused Dead\n6 closed 1 1.0.65535\n7 closed 1 0.1.65535\n8 fallen\n9 brought x,y 1.0.0\n10 refused StampOrder\n11 beat 0\n12 taken\n13 read none\n14 shown x,y 1.0.0\n15 read 1.0.0 2\n16 read 1.0.0 1\n17 view 2\nholdings\n",
    ),
    // A client carries a group to a site that keeps a part of it.
    (
        PART_AT_SITE_1,
        "writes a x 1 y 2\nmove a 1\nattach a 1\ngather 0\nemit 0\nemit 0\nhop 1 s0 z0\nhop 1 s0 z0\nturn 1\nbulk 0 0 1\nturn 1\nattach a 1\nturn 1\nattach a 1\nread a y\nread a x\nend\n",
        "1 wrote 1.0.0\n2 moved 2.0.0\n3 refused NotYet\n4 gathered 2 stable 2\n5 emitted update 1.0.0\n6 emitted move 2.0.0\n7 hopped update 1.0.0 to s1\n8 hopped move 2.0.0 to s1\n9 refused NoPayload 1.0.0\n10 brought y 1.0.0\n11 shown y 1.0.0\n12 refused NotYet\n13 took move 2.0.0\n14 attached\n15 read 1.0.0 2\n16 refused NotHere\nholdings\n",
    ),
    // Equal timestamps go by site, then by gear.
    (
        TWO_GEARS,
        "write a x 1\nwrite b y 2\nwrite c x 33\ngather 0\nemit 0\nemit 0\nemit 0\nhop 1 s0 z0\nbulk 0 0 1\nturn 1\nread c x\nend\n",
        "1 wrote 1.0.0\n2 wrote 1.0.1\n3 wrote 1.1.0\n4 gathered 2 stable 1\n5 emitted update 1.0.0\n6 emitted update 1.0.1\n7 refused Idle\n8 hopped update 1.0.0 to s1\n9 brought x 1.0.0\n10 shown x 1.0.0\n11 read 1.1.0 33\nholdings\n",
    ),
    // A clock raises each gear to the greatest promise of all sites.
    (
        TWO_GEARS,
        "write a x 1\ntick 1 1 7\nclock\ngather 0\nwrite c y 2\nclock\nend\n",
        "1 wrote 1.0.0\n2 ticked 7\n3 clocked 7\n4 gathered 1 stable 7\n5 wrote 8.1.1\n6 clocked 8\nholdings\n",
    ),
    // Two writes of one client keep their order, and what a client read raises the stamp of its next write.
    (
        HEADER,
        "write a x one\nwrite a x second\ngather 0\nemit 0\nemit 0\nhop 1 s0 z0\nhop 1 s0 z0\nbulk 0 0 1\nbulk 0 0 1\nturn 1\nturn 1\nread b x\nwrite b x three\nend\n",
        "1 wrote 1.0.0\n2 wrote 2.0.0\n3 gathered 2 stable 2\n4 emitted update 1.0.0\n5 emitted update 2.0.0\n6 hopped update 1.0.0 to s1\n7 hopped update 2.0.0 to s1\n8 brought x 1.0.0\n9 brought x 2.0.0\n10 shown x 1.0.0\n11 shown x 2.0.0\n12 read 2.0.0 second\n13 wrote 3.1.0\nholdings\n",
    ),
    // Labels go towards their targets alone.
    (
        PRUNED,
        "write a x v\ngather 1\nemit 1\nhop 1 s1 z1\nhop 1 z1 z0\nhop 1 z0 z2\nturn 0\nturn 2\nturn 4\nturn 3\nbulk 1 0 3\nturn 3\nhop 1 z0 z2\nhop 1 z1 z0\nend\n",
        "1 wrote 1.1.0\n2 gathered 1 stable 1\n3 emitted update 1.1.0\n4 hopped update 1.1.0 to z0\n5 hopped update 1.1.0 to z2\n6 hopped update 1.1.0 to s3\n7 refused Empty\n8 refused Empty\n9 refused Empty\n10 refused NoPayload 1.1.0\n11 brought x 1.1.0\n12 shown x 1.1.0\n13 refused Empty\n14 refused Empty\nholdings\nsite 0 view 1 emission 1 tree waiting 0\nsite 1 view 1 emission 1 tree waiting 0\nitem x 1.1.0 v\nsite 2 view 1 emission 1 tree waiting 0\nsite 3 view 1 emission 1 tree waiting 0\nitem x 1.1.0 v\nsite 4 view 1 emission 1 tree waiting 0\ndone\n",
    ),
    // The update of q was written after that of p was read, and comes to site 2 behind it, though its payload comes
    // first.
    (
        CHAIN,
        "write b q Q\nwrite a q Q\nwrite a p P\nend\n",
        "1 wrote 1.1.0\n2 refused NotHere\n3 wrote 1.0.0\nholdings\n",
    ),
    (
        CHAIN,
        "write a p P\ngather 0\nemit 0\nhop 1 s0 z0\nbulk 0 0 1\nturn 1\nread b p\nwrite b q QQ\ngather 1\nemit 1\nhop 1 s1 z0\nbulk 1 0 2\nturn 2\nhop 1 z0 z1\nhop 1 z0 z1\nturn 2\nbulk 0 0 2\nturn 2\nturn 2\nend\n",
        "1 wrote 1.0.0\n2 gathered 1 stable 1\n3 emitted update 1.0.0\n4 hopped update 1.0.0 to s1,z1\n5 brought p 1.0.0\n6 shown p 1.0.0\n7 read 1.0.0 P\n8 wrote 2.1.0\n9 gathered 1 stable 2\n10 emitted update 2.1.0\n11 hopped update 2.1.0 to z1\n12 brought q 2.1.0\n13 refused Empty\n14 hopped update 1.0.0 to s2\n15 hopped update 2.1.0 to s2\n16 refused NoPayload 1.0.0\n17 brought p 1.0.0\n18 shown p 1.0.0\n19 shown q 2.1.0\nholdings\n",
    ),
    // A label waits for its payload.
    (
        HEADER,
        "write a x v\ngather 0\nemit 0\nhop 1 s0 z0\nturn 1\nbulk 0 0 1 0\nturn 1\nturn 1\nend\n",
        "1 wrote 1.0.0\n2 gathered 1 stable 1\n3 emitted update 1.0.0\n4 hopped update 1.0.0 to s1\n5 refused NoPayload 1.0.0\n6 brought x 1.0.0\n7 shown x 1.0.0\n8 refused Empty\nholdings\n",
    ),
    // A payload is taken before its label as well, and once.
    (
        HEADER,
        "write a x v\nbulk 0 0 1 0\nbulk 0 0 1 0\ngather 0\nemit 0\nhop 1 s0 z0\nturn 1\nbulk 0 0 1 0\nturn 1\nbulk 0 0 1\nbulk 0 0 1 1\nend\n",
        "1 wrote 1.0.0\n2 brought x 1.0.0\n3 again\n4 gathered 1 stable 1\n5 emitted update 1.0.0\n6 hopped update 1.0.0 to s1\n7 shown x 1.0.0\n8 again\n9 refused Empty\n10 refused NoSuch\n11 refused NoSuch\nholdings\n",
    ),
    // A gear that promises nothing holds its site's labels back, and a pulse comes behind them.
    (
        TWO_GEARS,
        "write a x 1\ngather 0\nemit 0\ntick 0 1 5\nemit 0\ngather 0\npulse 0\nemit 0\npulse 0\npulse 0\nend\n",
        "1 wrote 1.0.0\n2 gathered 1 stable 0\n3 refused Idle\n4 ticked 5\n5 refused Idle\n6 gathered 0 stable 1\n7 refused Idle\n8 emitted update 1.0.0\n9 pulsed 1.0.65534\n10 refused Idle\nholdings\n",
    ),
    // The last timestamps.
    (
        HEADER,
        "tick 0 0 4611686018427387903\nwrite a x v\nwrite a x w\nmove a 1\ntick 1 0 4611686018427387904\nwrite b x u\nend\n",
        "1 ticked 4611686018427387903\n2 wrote 4611686018427387904.0.0\n3 refused Spent\n4 refused Spent\n5 ticked 4611686018427387904\n6 refused Spent\nholdings\n",
    ),
    // A client carries its causes to a site that keeps none of them, and they come before what it writes there.
    (
        CHAIN_OF_TWO,
        "write a p P\nmove a 1\nattach a 1\ngather 0\nemit 0\nemit 0\nhop 1 s0 z0\nhop 1 s0 z0\nturn 1\nattach a 1\nwrite a q Q\ngather 1\nemit 1\nhop 1 s1 z0\nhop 1 z0 z1\nhop 1 z0 z1\nbulk 1 0 2\nturn 2\nbulk 0 0 2\nturn 2\nturn 2\nend\n",
        "1 wrote 1.0.0\n2 moved 2.0.0\n3 refused NotYet\n4 gathered 2 stable 2\n5 emitted update 1.0.0\n6 emitted move 2.0.0\n7 hopped update 1.0.0 to z1\n8 hopped move 2.0.0 to s1\n9 took move 2.0.0\n10 attached\n11 wrote 3.1.0\n12 gathered 1 stable 3\n13 emitted update 3.1.0\n14 hopped update 3.1.0 to z1\n15 hopped update 1.0.0 to s2\n16 hopped update 3.1.0 to s2\n17 brought q 3.1.0\n18 refused NoPayload 1.0.0\n19 brought p 1.0.0\n20 shown p 1.0.0\n21 shown q 3.1.0\nholdings\n",
    ),
    // What a client read was made where it goes, and what it wrote was not.
    (
        THREE_CLIENTS,
        "tick 1 0 10\nwrite b x X\ngather 1\nemit 1\nhop 1 s1 z0\nbulk 1 0 0\nturn 0\nwrite c y Y\nread a y\nread a x\nleave a\nattach a 1\ntick 0 0 12\ngather 0\nemit 0\npulse 0\nhop 1 s0 z0\nhop 1 s0 z0\nturn 1\nbulk 0 0 1\nturn 1\nturn 1\nattach a 1\nread a y\nend\n",
        "1 ticked 10\n2 wrote 11.1.0\n3 gathered 1 stable 11\n4 emitted update 11.1.0\n5 hopped update 11.1.0 to s0\n6 brought x 11.1.0\n7 shown x 11.1.0\n8 wrote 1.0.0\n9 read 1.0.0 Y\n10 read 11.1.0 X\n11 left 11.1.0\n12 refused NotYet\n13 ticked 12\n14 gathered 1 stable 12\n15 emitted update 1.0.0\n16 pulsed 12.0.65534\n17 hopped update 1.0.0 to s1\n18 hopped pulse 12.0.65534 to s1\n19 refused NoPayload 1.0.0\n20 brought y 1.0.0\n21 shown y 1.0.0\n22 took pulse 12.0.65534\n23 attached\n24 read 1.0.0 Y\nholdings\n",
    ),
    // Where a tree orders the labels, beats let no client attach.
    (
        ONE_ITEM_OF_THREE,
        "write a x v\nleave a\ntick 0 0 2\ntick 2 0 2\ngather 0\ngather 2\nemit 0\nbeat 0 1\nbeat 2 1\nbulk 0 0 1\nbeatin 0 1 0\nbeatin 2 1 0\nattach a 1\npulse 0\npulse 2\nhop 1 s0 z0\nhop 1 s0 z0\nturn 1\nturn 1\nattach a 1\nhop 1 s2 z0\nturn 1\nattach a 1\nend\n",
        "1 wrote 1.0.0\n2 left 1.0.0\n3 ticked 2\n4 ticked 2\n5 gathered 1 stable 2\n6 gathered 0 stable 2\n7 emitted update 1.0.0\n8 beat 0\n9 beat 0\n10 brought x 1.0.0\n11 taken\n12 taken\n13 refused NotYet\n14 pulsed 2.0.65534\n15 pulsed 2.2.65534\n16 hopped update 1.0.0 to s1,s2\n17 hopped pulse 2.0.65534 to s1,s2\n18 shown x 1.0.0\n19 took pulse 2.0.65534\n20 refused NotYet\n21 hopped pulse 2.2.65534 to s0,s1\n22 took pulse 2.2.65534\n23 attached\nholdings\n",
    ),
    // A planned switch of trees: what is early in the next tree waits for the closes of this one.
    (
        TWO_TREES,
        "write a x one\ngather 0\nemit 0\nclose 0\nwrite a x two\ngather 0\nemit 0\nhop 2 s0 z0\nhop 2 z0 z1\nbulk 0 0 1 1\nturn 1\nadvance 1\nclose 1\nadvance 1\nhop 1 s0 z0\nhop 1 s0 z0\nbulk 0 0 1 0\nturn 1\nturn 1\nadvance 1\nturn 1\nread b x\nadvance 0\nhop 1 s1 z0\nturn 0\nadvance 0\nclose 0\nend\n",
        "1 wrote 1.0.0\n2 gathered 1 stable 1\n3 emitted update 1.0.0\n4 closed 1 1.0.65535\n5 wrote 2.0.0\n6 gathered 1 stable 2\n7 emitted update 2.0.0\n8 hopped update 2.0.0 to z1\n9 hopped update 2.0.0 to s1\n10 brought x 2.0.0\n11 refused Empty\n12 refused NotClosed\n13 closed 1 0.1.65535\n14 refused NotYet\n15 hopped update 1.0.0 to s1\n16 hopped close 1.0.65535 to s1\n17 brought x 1.0.0\n18 shown x 1.0.0\n19 took close 1.0.65535\n20 view 2\n21 shown x 2.0.0\n22 read 2.0.0 two\n23 refused NotYet\n24 hopped close 0.1.65535 to s0\n25 took close 0.1.65535\n26 view 2\n27 refused NoNextEpoch\nholdings\n",
    ),
    // A serializer dies, and both sites go on by stamps.
    (
        TWO_TREES,
        "write a x one\ngather 0\nemit 0\nkill 1 z0\nkill 1 z0\nhop 1 s0 z0\nfall 1\nclose 0\nclose 1\nfall 1\nfall 1\nturn 1\nbulk 0 0 1\nadvance 1\nbeat 0 1\nbeatin 0 1 0\nadvance 1\nstamp 1\nadvance 1\nstamp 1\nfall 0\nbeat 1 0\nbeatin 1 0 0\nadvance 0\nend\n",
        "1 wrote 1.0.0\n2 gathered 1 stable 1\n3 emitted update 1.0.0\n4 killed\n5 refused Already\n6 refused Dead\n7 refused NotClosed\n8 closed 1 1.0.65535\n9 closed 1 0.1.65535\n10 fallen\n11 refused StampOrder\n12 refused StampOrder\n13 brought x 1.0.0\n14 refused NotYet\n15 beat 0\n16 taken\n17 refused NotYet\n18 shown x 1.0.0\n19 view 2\n20 refused TreeOrder\n21 fallen\n22 beat 0\n23 taken\n24 view 2\nholdings\n",
    ),
    // One site ends the first tree by stamps, another by the tree.
    (
        SAME_TREE_TWICE,
        "write a x A\ngather 0\nemit 0\nclose 0\nclose 1\nclose 2\nfall 1\nbulk 0 0 1\nbeat 0 1\nbeatin 0 1 0\nstamp 1\nbeat 2 1\nbeatin 2 1 0\nstamp 1\nread b x\nwrite b y B\ngather 1\nemit 1\nhop 2 s1 z0\nbulk 1 0 2\nturn 2\nhop 1 s0 z0\nhop 1 s0 z0\nhop 1 s1 z0\nbulk 0 0 2\nturn 2\nturn 2\nturn 2\nadvance 2\nturn 2\nadvance 1\nend\n",
        "1 wrote 1.0.0\n2 gathered 1 stable 1\n3 emitted update 1.0.0\n4 closed 1 1.0.65535\n5 closed 1 0.1.65535\n6 closed 1 0.2.65535\n7 fallen\n8 brought x 1.0.0\n9 beat 0\n10 taken\n11 refused NotYet\n12 beat 0\n13 taken\n14 shown x 1.0.0\n15 read 1.0.0 A\n16 wrote 2.1.0\n17 gathered 1 stable 2\n18 emitted update 2.1.0\n19 hopped update 2.1.0 to s2\n20 brought y 2.1.0\n21 refused Empty\n22 hopped update 1.0.0 to s1,s2\n23 hopped close 1.0.65535 to s1,s2\n24 hopped close 0.1.65535 to s0,s2\n25 brought x 1.0.0\n26 shown x 1.0.0\n27 took close 1.0.65535\n28 took close 0.1.65535\n29 view 2\n30 shown y 2.1.0\n31 view 2\nholdings\n",
    ),
    // A close between two labels of one timestamp.
    (
        TREE_THEN_STAMPS,
        "write a x 1\nwrite b y 2\ngather 0\nemit 0\nclose 0\nclose 0\nemit 0\nhop 1 s0 z0\nhop 1 s0 z0\nhop 1 s0 z0\nbulk 0 0 1\nbulk 0 1 1\nturn 1\nturn 1\nclose 1\nadvance 1\nturn 1\nstamp 1\nbeat 0 1\nbeatin 0 1 0\nstamp 1\nbeatin 0 1 0\nend\n",
        "1 wrote 1.0.0\n2 wrote 1.0.1\n3 gathered 2 stable 1\n4 emitted update 1.0.0\n5 closed 1 1.0.0\n6 refused Behind\n7 emitted update 1.0.1\n8 hopped update 1.0.0 to s1\n9 hopped close 1.0.0 to s1\n10 refused Empty\n11 brought x 1.0.0\n12 brought y 1.0.1\n13 shown x 1.0.0\n14 took close 1.0.0\n15 closed 1 0.1.65535\n16 view 2\n17 refused StampOrder\n18 refused NotYet\n19 beat 0\n20 taken\n21 shown y 1.0.1\n22 old\nholdings\n",
    ),
    // Of 64 sites the last one keeps the item, and the label goes to no other.
    (
        SIXTY_FOUR_SITES,
        "write a x v\ngather 0\nemit 0\nhop 1 s0 z0\nbulk 0 0 63\nturn 63\nturn 62\nend\n",
        "1 wrote 1.0.0\n2 gathered 1 stable 1\n3 emitted update 1.0.0\n4 hopped update 1.0.0 to s63\n5 brought x 1.0.0\n6 shown x 1.0.0\n7 refused Empty\nholdings\n",
    ),
    // A settle of 64 sites: a clock, 64 gathers, an emission, 64 pulses, and 4,032 beats that are made and taken; in
    // one round a payload, 65 hops, a turn for the update and 4,032 for the pulses.
    (
        SIXTY_FOUR_SITES,
        "write a x v\nsettle\nend\n",
        "1 wrote 1.0.0\n2 settled 1 12293\nholdings\n",
    ),
    // Sessions.
    (
        CHAIN_OF_TWO,
        "attach a 0\nwrite a q z\nmove a 0\nleave a\nleave a\nread a p\nattach a 1\nread a q\nread a p\nend\n",
        "1 refused Joined\n2 refused NotHere\n3 refused SameSite\n4 left 0.0.0\n5 refused NoSession\n6 refused NoSession\n7 attached\n8 read none\n9 refused NotHere\nholdings\n",
    ),
    // In stamp order beats are taken in any order, and are told from old ones.
    (
        STAMPS,
        "write a x one\ngather 0\nemit 0\nbeat 0 1\nwrite a x two\ngather 0\nemit 0\nbeat 0 1\nbeatin 0 1 1\nbeatin 0 1 1\nbulk 0 0 1 1\nstamp 1\nbulk 0 0 1 0\nstamp 1\nstamp 1\nbeatin 0 1 0\nbeatin 0 1 2\nleave a\nattach a 1\nread a x\nend\n",
        "1 wrote 1.0.0\n2 gathered 1 stable 1\n3 emitted update 1.0.0\n4 beat 0\n5 wrote 2.0.0\n6 gathered 1 stable 2\n7 emitted update 2.0.0\n8 beat 1\n9 taken\n10 again\n11 brought x 2.0.0\n12 refused NotYet\n13 brought x 1.0.0\n14 shown x 1.0.0\n15 shown x 2.0.0\n16 old\n17 refused NoSuch\n18 left 2.0.0\n19 attached\n20 read 2.0.0 two\nholdings\n",
    ),
];

/// A front, what stands behind it, and the whole report: of a good script, or up to the first bad line.
pub const REPORTS: &[(&str, &str, &str)] = &[
    // No acts, and an item that no site shows.
    (
        "saturn 1\nsites 1\ngears 1\nitem x 0\nplan stamp\nbegin\n",
        "end\n",
        "holdings\nsite 0 view 1 emission 1 stamp waiting 0\nitem x none\ndone\n",
    ),
    // A settle: a clock, two gathers, an emission, two pulses, two beats that are made and taken, and in one round a
    // payload, three hops and three turns. A second one finds nothing to emit, to pulse or to do in a round.
    (
        HEADER,
        "write a x v\nsettle\nread b x\nsettle\nend\n",
        "1 wrote 1.0.0\n2 settled 1 17\n3 read 1.0.0 v\n4 settled 0 7\nholdings\nsite 0 view 1 emission 1 tree waiting 0\nitem x 1.0.0 v\nsite 1 view 1 emission 1 tree waiting 0\nitem x 1.0.0 v\ndone\n",
    ),
    // The entries of a settle stand before a fault too, and are not printed.
    (
        HEADER,
        "settle\nsettle 0\nend\n",
        "1 settled 0 7\nline 10: BadAct\n",
    ),
    // Over two trees: a clock, two gathers, an emission, two pulses and four acts on beats; in the first round two
    // payloads, three hops and three turns of the first tree, five hops of the second and two advances; in the second
    // round a hop and three turns.
    (
        TWO_TREES,
        "write a x one\ngather 0\nemit 0\nclose 0\nwrite a x two\nclose 1\nsettle\nread b x\nsettle\nend\n",
        "1 wrote 1.0.0\n2 gathered 1 stable 1\n3 emitted update 1.0.0\n4 closed 1 1.0.65535\n5 wrote 2.0.0\n6 closed 1 0.1.65535\n7 settled 2 29\n8 read 2.0.0 two\n9 settled 0 7\nholdings\nsite 0 view 2 emission 2 tree waiting 0\nitem x 2.0.0 two\nsite 1 view 2 emission 2 tree waiting 0\nitem x 2.0.0 two\ndone\n",
    ),
    // The same with groups: as many acts, since each is one update.
    (
        GROUPS_IN_TWO_TREES,
        "writes a x 1 y 2\ngather 0\nemit 0\nclose 0\nwrites a x 3 y 4\nclose 1\nsettle\nread b y\nend\n",
        "1 wrote 1.0.0\n2 gathered 1 stable 1\n3 emitted update 1.0.0\n4 closed 1 1.0.65535\n5 wrote 2.0.0\n6 closed 1 0.1.65535\n7 settled 2 29\n8 read 2.0.0 4\nholdings\nsite 0 view 2 emission 2 tree waiting 0\nitem x 2.0.0 3\nitem y 2.0.0 4\nsite 1 view 2 emission 2 tree waiting 0\nitem x 2.0.0 3\nitem y 2.0.0 4\ndone\n",
    ),
    // In stamp order: eleven acts before the rounds, of which two emissions, and in one round two payloads and two
    // stamps.
    (
        STAMPS,
        "write a x one\nwrite a x two\nsettle\nleave a\nattach a 1\nread a x\nend\n",
        "1 wrote 1.0.0\n2 wrote 2.0.0\n3 settled 1 15\n4 left 2.0.0\n5 attached\n6 read 2.0.0 two\nholdings\nsite 0 view 1 emission 1 stamp waiting 0\nitem x 2.0.0 two\nsite 1 view 1 emission 1 stamp waiting 0\nitem x 2.0.0 two\ndone\n",
    ),
    // Behind a dead serializer nothing comes, and only the payload is brought. Once both sites have closed the tree and
    // fallen, the update is shown by its timestamp and both go on.
    (
        TWO_TREES,
        "write a x one\ngather 0\nemit 0\nkill 1 z0\nsettle\nclose 0\nclose 1\nfall 0\nfall 1\nsettle\nread b x\nend\n",
        "1 wrote 1.0.0\n2 gathered 1 stable 1\n3 emitted update 1.0.0\n4 killed\n5 settled 1 10\n6 closed 1 1.0.65535\n7 closed 1 1.1.65535\n8 fallen\n9 fallen\n10 settled 1 10\n11 read 1.0.0 one\nholdings\nsite 0 view 2 emission 2 tree waiting 0\nitem x 1.0.0 one\nsite 1 view 2 emission 2 tree waiting 0\nitem x 1.0.0 one\ndone\n",
    ),
    // A script that was cut, and the same with the byte that ends its last line.
    (
        ONE_SITE,
        "tick 0 0 3\ngather 0\npulse 0\nclo",
        "1 ticked 3\n2 gathered 0 stable 3\n3 pulsed 3.0.65534\nline 9: NoEnd\n",
    ),
    (
        ONE_SITE,
        "tick 0 0 3\ngather 0\npulse 0\nclo\n",
        "1 ticked 3\n2 gathered 0 stable 3\n3 pulsed 3.0.65534\nline 9: BadAct\n",
    ),
    (HEADER, "write d x v\nend\n", "line 9: UnknownName\n"),
    (HEADER, "tick 2 0 1\nend\n", "line 9: OutOfRange\n"),
    (HEADER, "hop 1 z0 z0\nend\n", "line 9: NoEdge\n"),
    // Groups that are none: of items that do not ascend, of one item or of five, with a value too few, of unknown
    // names, and in format 1.
    (GROUPS, "writes b y 2 x 1\nend\n", "line 11: BadGroup\n"),
    (GROUPS, "writes b x 2 x 1\nend\n", "line 11: BadGroup\n"),
    (GROUPS, "writes b x 1 y 2 x 3\nend\n", "line 11: BadGroup\n"),
    (GROUPS, "writes b x 1\nend\n", "line 11: BadAct\n"),
    (GROUPS, "writes b x 1 y\nend\n", "line 11: BadAct\n"),
    (
        GROUPS,
        "writes b x 1 y 2 x 3 y 4 x 5\nend\n",
        "line 11: BadAct\n",
    ),
    (GROUPS, "writes d y 2 x 1\nend\n", "line 11: UnknownName\n"),
    (GROUPS, "writes b y 2 z 1\nend\n", "line 11: UnknownName\n"),
    (TWO_GEARS, "writes b x 1 y 2\nend\n", "line 11: BadAct\n"),
    (HEADER, "end\nx", "line 10: AfterEnd\n"),
    // A bad header.
    ("", "", "line 1: NoEnd\n"),
    ("saturn 2\n", "", "line 2: NoEnd\n"),
    ("saturn 3\n", "", "line 1: BadHeader\n"),
    ("saturn 02\n", "", "line 1: BadHeader\n"),
    ("saturn 0\n", "", "line 1: BadHeader\n"),
    (
        "saturn 1\nsites 2\ngears 1\nitem x 0\nitem x 1\n",
        "",
        "line 5: SameName\n",
    ),
    (
        "saturn 1\nsites 2\ngears 1\nplan stamp\nplan stamp\nplan stamp\nplan stamp\nplan stamp\nplan stamp\nplan stamp\nplan stamp\nplan stamp\nplan stamp\nplan stamp\nplan stamp\nplan stamp\nplan stamp\nplan stamp\nplan stamp\nplan stamp\n",
        "",
        "line 20: TooMany\n",
    ),
    ("saturn\t1\n", "", "line 1: NotText\n"),
    ("saturn 1\nsites 17\n", "", "line 2: OutOfRange\n"),
    ("saturn 2\nsites 65\n", "", "line 2: OutOfRange\n"),
    (
        "saturn 1\nsites 2\ngears 1\nitem x 0,1\nclient a 0\nclient b 1\nplan tree - 1 / 0 0\n",
        "",
        "line 7: BadTree\n",
    ),
];

// Words, and the summary that they give. The numbers written and shown are those of another program.
pub const SUMMARIES: &[(&str, &str)] = &[
    (
        "load 7 20000",
        "load 7 20000\nwritten 172\nshown 294\nwaiting 0\nunderway 0\nviews 2 2 2 2 2\ndone\n",
    ),
    (
        "load 7 100000",
        "load 7 100000\nwritten 346\nshown 588\nwaiting 0\nunderway 0\nviews 2 2 2 2 2\ndone\n",
    ),
];

// Acts behind `HEADER`, and how much is under way after them: the payload that is made and not brought, and the label
// on a link.
pub const UNDERWAY: &[(&str, u64)] = &[
    ("end\n", 0),
    ("write a x v\nend\n", 1),
    ("write a x v\ngather 0\nemit 0\nend\n", 2),
    ("write a x v\ngather 0\nemit 0\nhop 1 s0 z0\nend\n", 2),
    (
        "write a x v\ngather 0\nemit 0\nhop 1 s0 z0\nbulk 0 0 1\nend\n",
        1,
    ),
    (
        "write a x v\ngather 0\nemit 0\nhop 1 s0 z0\nbulk 0 0 1\nturn 1\nend\n",
        0,
    ),
    (
        "write a x v\nwrite a x w\nwrite a x u\nbulk 0 0 1 1\nend\n",
        2,
    ),
];

const TABLE: &str =
    "{\"sites\":2,\"places\":2,\"reach\":[[3,9],[4,1]],\"between\":[[0,5],[5,0]],\"optimal\":[[0,10],[7,0]],\"weight\":[[0,2],[1,0]]";

// Two places are as good for each site.
const TIES: &str =
    "{\"sites\":2,\"places\":3,\"reach\":[[5,1,1],[5,1,1]],\"between\":[[0,0,0],[0,0,0],[0,0,0]],\"optimal\":[[0,0],[0,0]],\"weight\":[[0,1],[1,0]]";

/// A table of delays, the tree behind it, and what `place` prints. Of two serializers in the first table, both at place
/// 0 cost 6, at 0 and 1 they cost 4, at 1 and 0 27, and both at place 1 cost 3.
pub const PLACED: &[(&str, &str, &str)] = &[
    (
        TABLE,
        ",\"parents\":[],\"seats\":[0,0]}",
        "plan tree - / 0 0\nplace z0 1\nmismatch 3\n",
    ),
    (
        TABLE,
        ",\"parents\":[0],\"seats\":[0,1]}",
        "plan tree - 0 / 0 1\nplace z0 1\nplace z1 1\nmismatch 3\n",
    ),
    (
        TIES,
        ",\"parents\":[],\"seats\":[0,0]}",
        "plan tree - / 0 0\nplace z0 1\nmismatch 4\n",
    ),
    (
        TIES,
        ",\"parents\":[0],\"seats\":[0,1]}",
        "plan tree - 0 / 0 1\nplace z0 1\nplace z1 1\nmismatch 4\n",
    ),
];

/// The tree behind a table of delays, and what `place` finds wrong with it.
pub const BAD_SHAPES: &[(&str, &str)] = &[
    ("", "place: NotJson\n"),
    (",\"places\":9}", "place: BadShape reach 0 2\n"),
    ("}", "place: BadShape parents 0 0\n"),
    (",\"parents\":5}", "place: BadShape parents 0 0\n"),
    (",\"parents\":{}}", "place: BadShape parents 0 0\n"),
    (",\"parents\":[null]}", "place: BadShape parents 0 0\n"),
    (",\"parents\":[1]}", "place: TooBig parents 0 0\n"),
    (",\"parents\":[0,-1]}", "place: BadShape parents 1 0\n"),
    (",\"parents\":[0,2]}", "place: TooBig parents 1 0\n"),
    (
        ",\"parents\":[0,1,2,3,5,true]}",
        "place: TooBig parents 4 0\n",
    ),
    (
        ",\"parents\":[0,1,2,3,4,0]}",
        "place: BadShape parents 5 0\n",
    ),
    (",\"parents\":[0,1,2,3,4]}", "place: BadShape seats 0 0\n"),
    (
        ",\"parents\":[],\"seats\":0}",
        "place: BadShape seats 0 0\n",
    ),
    (
        ",\"parents\":[],\"seats\":[0]}",
        "place: BadShape seats 1 0\n",
    ),
    (
        ",\"parents\":[],\"seats\":[0,1]}",
        "place: TooBig seats 1 0\n",
    ),
    (
        ",\"parents\":[0],\"seats\":[1,0.0]}",
        "place: BadShape seats 1 0\n",
    ),
    (
        ",\"parents\":[0],\"seats\":[1,0,2]}",
        "place: BadShape seats 2 0\n",
    ),
];

/// The table that those trees stand behind.
pub const BEFORE_BAD_SHAPES: &str = TABLE;

/// A table and a tree with nine places, which a table alone may have.
pub const NINE_PLACES: &str =
    "{\"sites\":1,\"places\":9,\"reach\":[[0,0,0,0,0,0,0,0,0]],\"between\":[[0,0,0,0,0,0,0,0,0],[0,0,0,0,0,0,0,0,0],[0,0,0,0,0,0,0,0,0],[0,0,0,0,0,0,0,0,0],[0,0,0,0,0,0,0,0,0],[0,0,0,0,0,0,0,0,0],[0,0,0,0,0,0,0,0,0],[0,0,0,0,0,0,0,0,0],[0,0,0,0,0,0,0,0,0]],\"optimal\":[[0]],\"weight\":[[0]]}";

/// Texts that say no sizes, and what `plan` finds wrong with them.
pub const BAD_SIZES: &[(&str, &str)] = &[
    ("{", "plan: NotJson\n"),
    ("", "plan: NotJson\n"),
    ("{\"sites\":1}x", "plan: NotJson\n"),
    ("7", "plan: BadShape sites 0 0\n"),
    ("[2,1]", "plan: BadShape sites 0 0\n"),
    ("{\"places\":1}", "plan: BadShape sites 0 0\n"),
    ("{\"sites\":0}", "plan: BadShape sites 0 0\n"),
    ("{\"sites\":\"2\"}", "plan: BadShape sites 0 0\n"),
    ("{\"sites\":-1}", "plan: BadShape sites 0 0\n"),
    ("{\"sites\":2.0}", "plan: BadShape sites 0 0\n"),
    (
        "{\"sites\":18446744073709551616}",
        "plan: BadShape sites 0 0\n",
    ),
    (
        "{\"sites\":18446744073709551615}",
        "plan: TooBig sites 0 0\n",
    ),
    ("{\"sites\":17}", "plan: TooBig sites 0 0\n"),
    ("{\"sites\":16}", "plan: BadShape places 0 0\n"),
    ("{\"sites\":16,\"places\":0}", "plan: BadShape places 0 0\n"),
    ("{\"sites\":16,\"places\":33}", "plan: TooBig places 0 0\n"),
    ("{\"sites\":16,\"places\":32}", "plan: BadShape reach 0 0\n"),
    (
        "{\"sites\":17,\"sites\":16,\"places\":32}",
        "plan: BadShape reach 0 0\n",
    ),
];

/// What stands before the matrices of the next table.
pub const BEFORE_MATRICES: &str = "{\"sites\":2,\"places\":1,";

/// For each matrix a missing row, a row too many, a missing cell, a cell too many, a cell that is no whole number and
/// one that is too big.
pub const BAD_MATRICES: &[(&str, &str)] = &[
    ("\"reach\":5}", "plan: BadShape reach 0 0\n"),
    ("\"reach\":[]}", "plan: BadShape reach 0 0\n"),
    ("\"reach\":[[3]]}", "plan: BadShape reach 1 0\n"),
    ("\"reach\":[[3],4]}", "plan: BadShape reach 1 0\n"),
    ("\"reach\":[[3],[4],[5]]}", "plan: BadShape reach 2 0\n"),
    ("\"reach\":[[],[4]]}", "plan: BadShape reach 0 0\n"),
    ("\"reach\":[[3],[4,5]]}", "plan: BadShape reach 1 1\n"),
    ("\"reach\":[[3],[null]]}", "plan: BadShape reach 1 0\n"),
    ("\"reach\":[[3],[100001]]}", "plan: TooBig reach 1 0\n"),
    ("\"reach\":[[3],[100000]]}", "plan: BadShape between 0 0\n"),
    (
        "\"reach\":[[3],[4]],\"between\":[[0],[0]]}",
        "plan: BadShape between 1 0\n",
    ),
    (
        "\"reach\":[[3],[4]],\"between\":[[0,0]]}",
        "plan: BadShape between 0 1\n",
    ),
    (
        "\"reach\":[[3],[4]],\"between\":[[100001]]}",
        "plan: TooBig between 0 0\n",
    ),
    (
        "\"reach\":[[3],[4]],\"between\":[[0]],\"optimal\":[[0,1]]}",
        "plan: BadShape optimal 1 0\n",
    ),
    (
        "\"reach\":[[3],[4]],\"between\":[[0]],\"optimal\":[[0,1],[2]]}",
        "plan: BadShape optimal 1 1\n",
    ),
    (
        "\"reach\":[[3],[4]],\"between\":[[0]],\"optimal\":[[0,1,2],[2]]}",
        "plan: BadShape optimal 0 2\n",
    ),
    (
        "\"reach\":[[3],[4]],\"between\":[[0]],\"optimal\":[[0,1],[2,100001]]}",
        "plan: TooBig optimal 1 1\n",
    ),
    (
        "\"reach\":[[3],[4]],\"between\":[[0]],\"optimal\":[[0,1],[2,0]],\"weight\":[[0,1],[2,true]]}",
        "plan: BadShape weight 1 1\n",
    ),
    (
        "\"reach\":[[3],[4]],\"between\":[[0]],\"optimal\":[[0,1],[2,0]],\"weight\":[[0,1],[1000001,true]]}",
        "plan: TooBig weight 1 0\n",
    ),
    (
        "\"reach\":[[3],[4]],\"between\":[[0]],\"optimal\":[[0,1],[2,0]],\"weight\":[[0,1],[2,0],[]]}",
        "plan: BadShape weight 2 0\n",
    ),
];

/// The last matrices of a good table.
pub const GOOD_MATRICES: &str =
    "\"reach\":[[3],[4]],\"between\":[[0]],\"optimal\":[[0,10],[7,0]],\"weight\":[[0,2],[1,0]]}";
