use crate::scripts::Stored;

pub(crate) const SCRIPT: Stored = Stored {
    rack: "",
    lines: "push 1 2 4
push 2 3 4
look 2 1 4
push 1 2 5
push 3 2 5
ship 1 1
push 1 2 6
push 1 3 4
look 2 3 5
push 2 1 5
look 3 2 4
look 3 1 4
push 2 3 5
look 2 1 6
push 3 1 5
push 1 3 5
look 1 2 5
look 3 2 5
look 2 1 5
push 3 1 4
push 1 3 6
push 2 3 6
push 2 1 4
push 1 3 4
push 2 3 5
push 2 1 5
push 2 1 3
ship 3 2
elect 3
look 1 2 5
look 3 1 4
push 2 3 4
push 1 3 4
push 2 1 6
look 1 2 6
push 3 1 6
push 1 2 5
look 3 2 4
look 3 1 6
push 3 1 4
look 2 1 5
push 3 1 4
push 3 2 5
push 3 1 4
push 1 3 4
look 3 1 5
look 1 3 5
push 3 2 6
look 1 2 4
push 1 2 6
look 3 1 5
look 1 3 6
look 3 2 6
look 2 3 5
push 2 3 4
push 1 3 4
look 2 1 6
look 3 1 5
commit 3
push 2 1 4
look 3 2 5
push 3 2 6
push 3 1 6
look 2 3 6
look 3 2 4
look 2 3 6
look 1 2 4
take 3 0
look 1 3 4
look 2 1 4
push 2 3 4
take 1 3
commit 4
submit 2 2 5 226
push 3 1 6
ship 3 1
look 3 1 4
push 1 3 6
push 3 1 6
look 3 1 4
push 3 2 4
push 2 1 6
look 1 3 6
commit 1
look 2 3 4
push 3 2 5
look 3 1 4
look 1 3 6
push 1 2 5
push 1 3 4
submit 2 10 18 335
look 3 1 6
look 3 1 4
look 1 2 6
push 3 1 6
look 1 3 6
look 2 1 6
take 3 1
push 2 3 4
push 3 2 5
look 2 1 5
push 1 2 5
commit 3
look 2 1 5
push 1 3 6
push 2 3 5
look 3 2 4
push 2 3 6
push 2 1 4
elect 3
push 2 1 4
commit 1
timeout 2
look 3 1 6
take 2 1
push 2 1 6
look 3 2 5
look 1 3 4
look 2 3 5
look 1 3 4
look 3 2 6
look 2 3 5
look 3 2 4
look 1 2 4
push 1 3 5
push 1 3 4
look 1 3 4
look 3 1 4
take 2 1
take 3 1
push 2 1 4
elect 1
push 1 2 4
push 1 3 6
push 2 3 4
look 2 3 4
push 1 2 6
push 2 3 4
look 3 1 5
push 3 1 4
push 2 3 5
look 3 1 7
look 2 1 4
look 1 3 6
push 2 3 4
elect 1
look 3 1 6
push 3 2 6
push 1 3 5
take 1 3
look 3 2 4
look 3 2 5
look 2 3 6
look 1 2 6
elect 3
push 2 3 5
push 3 1 6
look 3 1 5
look 1 3 5
look 2 3 6
look 1 3 4
push 3 1 5
look 1 2 4
elect 2
push 1 3 6
elect 1
look 1 2 4
push 3 2 5
look 3 2 5
push 3 2 6
push 1 3 6
look 3 2 4
push 3 1 5
win 2
look 1 3 5
look 3 1 6
look 2 1 6
look 3 2 4
push 2 3 6
look 2 3 5
commit 2
push 3 1 5
look 2 3 6
look 3 1 6
elect 1
look 1 3 5
push 2 1 4
look 1 2 4
push 1 3 6
look 1 3 6
push 3 1 5
push 3 1 6
submit 2 0 27 -607
timeout 3
take 2 1
look 3 2 4
push 1 2 4
look 2 1 4
take 1 3
win 2
commit 3
look 3 2 6
commit 4
submit 3 6 21 -624
ship 2 3
push 3 2 6
look 3 1 6
ship 2 1
look 3 2 6
commit 4
look 2 3 6
take 3 2
look 1 3 5
submit 2 4 20 -255
look 1 3 6
submit 2 14 17 217
submit 2 5 19 -618
take 1 2
ship 1 3
take 2 1
push 3 2 5
ship 2 3
ship 2 3
ship 2 3
take 3 2
commit 2
ship 2 1
push 3 1 5
push 3 2 4
push 1 2 5
look 2 1 5
take 1 2
look 1 3 5
push 1 3 5
commit 2
push 3 1 6
push 1 3 4
push 1 3 5
submit 2 6 4 -912
elect 1
push 1 3 5
look 2 1 6
ship 2 3
push 3 1 4
look 2 3 5
submit 2 0 19 -598
submit 2 9 30 643
submit 3 2 32 -234
push 1 2 5
take 3 2
push 3 1 6
win 1
submit 1 5 16 -987
take 3 2
push 3 2 6
take 3 2
look 3 1 5
ship 2 1
push 3 2 4
take 1 2
look 1 3 6
look 1 3 6
look 1 3 4
push 1 2 4
look 2 3 4
ship 2 1
ship 2 3
look 3 1 4
ship 2 1
push 3 2 4
look 3 1 5
ship 2 3
look 2 3 6
look 3 1 5
submit 2 13 22 -945
push 3 1 5
take 1 2
look 2 1 5
take 3 2
ship 2 1
take 3 2
commit 4
take 1 2
ship 2 3
look 2 1 4
commit 2
push 2 3 4
timeout 1
look 3 1 6
commit 2
commit 2
take 3 2
take 1 2
look 2 3 4
push 1 3 5
ship 2 1
push 1 2 4
look 2 3 4
look 3 2 4
look 1 3 5
submit 2 9 12 174
push 1 3 4
push 1 3 4
push 3 1 5
ship 2 1
look 1 3 5
push 3 2 4
commit 1
submit 2 11 18 -829
push 2 3 5
look 3 1 5
ship 2 1
commit 1
look 3 2 5
ship 2 3
take 3 2
ship 2 1
push 1 2 4
elect 3
ship 2 3
push 3 1 5
take 3 2
push 2 1 4
push 2 3 6
look 1 3 5
look 2 3 4
commit 2
push 2 1 6
look 1 3 5
look 1 2 6
ship 3 3
push 2 3 6
look 3 1 4
push 2 1 6
commit 4
push 2 1 6
look 2 1 4
win 3
push 2 1 4
take 2 0
look 3 1 4
push 2 1 4
push 2 1 6
look 3 2 6
push 3 1 4
submit 2 12 18 -650
push 2 3 5
push 1 2 4
ship 2 3
push 3 1 5
push 1 3 4
look 1 3 4
look 3 2 5
commit 2
take 1 2
commit 2
take 3 2
push 3 2 6
take 1 2
submit 2 1 10 -792
push 3 2 6
ship 2 1
win 1
submit 3 5 30 872
look 2 1 4
ship 2 1
push 3 1 5
look 2 3 6
take 1 2
push 2 1 6
ship 1 3
ship 2 3
look 1 3 5
timeout 3
push 3 2 4
look 3 1 4
look 2 1 4
look 1 2 6
take 3 1
ship 1 2
take 3 2
submit 2 5 2 -888
push 2 1 6
ship 2 3
look 3 2 6
look 1 2 6
submit 2 13 30 52
look 1 2 4
push 1 3 5
submit 1 3 18 288
look 1 2 4
push 1 2 5
take 3 2
ship 2 3
look 2 1 5
submit 1 3 23 -531
take 2 1
look 3 1 5
look 1 2 4
submit 1 13 23 -725
look 2 1 7
ship 1 2
push 3 1 4
look 2 3 6
take 2 1
push 3 1 6
submit 1 7 7 37
submit 1 4 20 769
submit 1 14 22 964
look 2 1 5
ship 1 3
ship 3 2
submit 1 5 5 -612
look 2 3 4
look 1 3 4
push 2 3 4
ship 1 3
take 3 2
push 3 1 6
push 3 2 5
push 3 2 6
take 3 1
look 1 3 6
look 3 2 4
look 2 3 5
take 3 1
ship 3 2
push 2 1 4
push 2 1 4
submit 1 1 24 -223
look 1 3 5
push 1 3 4
look 2 3 6
look 1 2 4
commit 1
push 3 2 5
take 1 2
push 1 3 4
ship 1 2
look 1 2 6
look 1 2 6
look 1 2 6
ship 1 3
look 3 1 4
commit 1
look 2 3 5
ship 1 3
take 3 1
take 1 2
submit 1 4 31 444
take 2 1
push 2 3 5
take 1 2
timeout 3
push 3 2 4
take 3 1
push 2 1 5
look 1 2 4
look 2 3 4
push 1 2 6
submit 1 2 19 915
submit 1 2 23 -47
ship 1 2
submit 1 2 27 -600
look 2 1 6
push 2 1 5
timeout 3
look 3 1 4
take 2 1
timeout 3
ship 1 3
commit 2
take 3 1
push 1 3 5
commit 2
look 3 2 5
commit 1
look 3 1 5
ship 1 2
push 2 3 4
look 3 2 4
ship 1 2
push 3 1 4
push 3 1 4
push 3 1 5
push 1 2 6
look 1 3 5
look 1 3 4
ship 3 2
ship 1 3
push 2 1 6
look 1 2 6
push 3 2 4
ship 1 2
look 1 2 5
push 3 2 4
look 2 1 4
take 2 1
take 2 1
push 1 3 6
",
    prints: "ok
ok
ok
ok
ok
no 1
ok
ok
ok
ok
ok
ok
ok
ok
ok
ok
ok
ok
ok
ok
ok
ok
ok
ok
ok
ok
no 3
no 5
ok 0
ok
ok
ok
ok
ok
ok
ok
ok
ok
ok
ok
ok
ok
ok
ok
ok
ok
ok
ok
ok
ok
no 6
ok
ok
ok
ok
ok
ok
no 6
no 5
ok
ok
ok
ok
ok
ok
ok
ok
no 1
ok
no 6
ok
no 6
no 1
no 5
ok
no 5
ok
ok
ok
ok
ok
ok
ok
no 5
ok
ok
ok
ok
ok
ok
no 5
ok
ok
ok
ok
ok
no 6
no 6
ok
ok
ok
ok
no 5
ok
ok
ok
ok
ok
ok
ok 0
ok
no 5
ok 0 2
ok
no 6
ok
ok
ok
ok
ok
ok
ok
ok
ok
ok
ok
ok
ok
no 6
no 6
ok
ok 0
ok
ok
ok
no 6
ok
ok
ok
ok
ok
no 3
ok
ok
ok
ok 0
ok
ok
ok
no 6
ok
ok
ok
ok
ok 2
ok
ok
ok
no 6
no 6
ok
ok
ok
ok 0
ok
ok 0
ok
ok
ok
ok
ok
ok
ok
no 7
ok
ok
ok
ok
ok
ok
no 5
ok
ok
ok
ok 2
ok
ok
ok
ok
ok
ok
ok
no 5
ok 0 3
no 6
no 6
ok
ok
no 6
ok 0 2
no 5
ok
no 1
no 5
ok 1
ok
ok
ok 1
no 6
no 1
ok
ok 0
ok
ok 0 2 1
ok
ok 0 2 2
ok 0 2 3
ok 2
no 5
no 6
ok
ok 1
ok 1
ok 1
ok 0
no 6
ok 1
ok
ok
ok
ok
ok 1
ok
ok
no 6
ok
ok
ok
ok 0 2 4
no 5
ok
no 6
ok 1
ok
ok
ok 0 2 5
ok 0 2 6
no 3
ok
ok 0
ok
no 5
no 5
ok 0
ok
ok 0
ok
ok 1
ok
ok 1
ok
ok
ok
ok
ok
ok 1
ok 1
ok
ok 1
ok
ok
ok 1
ok
ok
ok 0 2 7
ok
ok 1
ok
ok 0
ok 1
ok 0
no 1
ok 1
ok 1
ok
ok 0
ok
ok 1 1
no 6
ok 1
ok 1
ok 0
ok 0
ok
ok
ok 1
ok
ok
ok
ok
ok 0 2 8
ok
ok
ok
ok 1
ok
ok
no 5
ok 0 2 9
ok
ok
ok 1
no 5
ok
ok 1
ok 0
ok 1
ok
ok 2
ok 1
ok
ok 0
ok
ok
ok
ok
no 6
ok
ok
ok
no 1
ok
ok
ok
no 1
ok
ok
no 7
ok
no 1
ok
ok
ok
ok
ok
ok 0 2 10
ok
ok
ok 1
ok
ok
ok
ok
ok 1
ok 0
ok 1
ok 0
ok
ok 0
ok 0 2 11
ok
ok 1
ok 1 1
no 5
ok
ok 1
ok
ok
ok 0
ok
ok 5
ok 1
ok
ok 1 3
ok
ok
ok
ok
ok 0
ok 3
ok 0
ok 0 2 12
ok
ok 1
ok
ok
ok 0 2 13
ok
ok
ok 1 1 1
ok
ok
ok 0
ok 1
ok
ok 1 1 2
ok 2
ok
ok
ok 1 1 3
no 3
ok 1
ok
ok
ok 1
ok
ok 1 1 4
ok 1 1 5
ok 1 1 6
no 6
ok 1
no 5
ok 1 1 7
ok
ok
ok
ok 1
ok 0
ok
ok
ok
ok 0
ok
ok
ok
ok 0
no 5
ok
ok
ok 1 1 8
ok
ok
ok
ok
ok 4
ok
ok 0
ok
ok 1
ok
ok
ok
ok 1
ok
ok 1
ok
ok 1
ok 0
ok 0
ok 1 1 9
ok 1
ok
ok 0
ok 2 3
ok
ok 0
ok
ok
ok
ok
ok 1 1 10
ok 1 1 11
ok 1
ok 1 1 12
ok
ok
ok 3 3
ok
ok 1
ok 4 3
ok 1
ok 0
ok 0
ok
ok 1
ok
no 6
ok
ok 1
ok
ok
ok 1
ok
ok
ok
ok
ok
ok
no 5
ok 1
ok
ok
ok
ok 1
ok
ok
no 6
ok 1
ok 1
ok
card 1 0.2.1 0.2.2 0.2.3 0.2.4 1.1.1
card 2 0.2.1 0.2.2 0.2.3 0.2.4 1.1.1
card 3
",
};
