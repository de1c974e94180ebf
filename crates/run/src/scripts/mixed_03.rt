use crate::scripts::Stored;

pub(crate) const SCRIPT: Stored = Stored {
    rack: "",
    lines: "timeout 1
push 2 1 4
push 3 2 4
push 1 3 6
look 1 2 4
push 2 3 4
push 3 2 4
push 1 3 5
look 3 1 5
elect 3
push 3 1 5
push 3 2 5
look 2 3 5
push 3 1 6
look 3 1 6
look 2 3 4
push 2 1 6
push 2 3 4
submit 2 9 21 937
push 2 1 5
push 2 3 4
elect 1
push 2 1 5
commit 2
elect 2
ship 1 1
look 3 1 6
push 2 3 5
look 1 3 5
look 1 2 6
push 1 3 4
push 1 3 5
look 1 2 5
look 1 3 6
look 3 1 5
look 3 2 4
push 3 2 5
push 2 1 5
elect 2
push 1 2 6
commit 1
look 1 2 6
push 1 2 5
timeout 2
push 3 2 6
look 2 1 5
win 1
push 1 3 5
push 3 2 5
look 1 3 6
ship 1 2
push 3 2 4
look 2 3 6
take 2 1
push 3 1 5
look 2 1 6
look 1 3 5
push 1 3 4
push 1 3 5
ship 1 3
look 2 3 5
submit 1 3 2 -180
look 3 1 5
push 3 1 4
push 2 1 5
look 2 3 5
push 2 3 4
push 3 1 5
commit 3
look 1 2 6
take 3 1
push 1 2 5
submit 1 10 14 392
look 1 2 6
take 3 2
look 1 3 4
look 2 3 4
look 2 3 6
look 2 1 4
ship 1 3
look 3 2 5
take 1 2
look 2 3 6
look 3 1 5
ship 2 1
win 3
look 2 3 4
look 1 2 5
look 1 2 5
push 1 3 4
look 3 1 4
push 2 3 4
submit 1 9 31 984
look 1 2 5
ship 1 2
look 3 2 4
look 1 3 5
ship 1 2
take 2 1
push 3 1 4
take 3 1
look 3 1 4
push 3 1 5
push 1 3 5
look 3 2 4
submit 1 13 23 -465
look 1 3 5
look 2 1 5
take 2 1
win 1
look 3 1 5
ship 1 3
push 3 1 5
push 3 2 4
look 3 1 4
ship 1 2
push 2 1 5
push 3 1 4
submit 1 3 19 -757
look 2 3 4
push 2 3 4
ship 1 3
push 3 2 5
push 2 3 4
commit 2
take 2 1
ship 1 2
push 3 2 4
take 3 1
take 3 1
ship 1 3
push 3 1 4
look 1 2 5
take 2 1
push 3 1 4
take 3 1
submit 1 6 9 -110
ship 1 2
look 1 3 5
push 2 1 6
look 1 3 4
elect 2
commit 1
ship 1 3
push 1 3 6
look 3 2 4
push 1 2 5
push 1 2 4
ship 1 2
take 3 1
push 2 3 5
look 3 2 4
take 2 1
push 1 3 4
push 3 1 4
look 3 2 4
take 2 1
ship 1 3
submit 1 6 13 -255
push 2 1 3
push 2 1 6
take 3 1
submit 1 15 21 -125
ship 1 2
push 2 1 6
push 2 3 5
look 2 1 5
look 2 1 4
push 3 2 5
submit 1 2 18 -527
look 1 2 6
ship 1 3
look 2 3 5
look 1 2 6
push 1 2 5
look 2 3 4
look 2 1 5
commit 4
look 3 2 4
look 3 2 5
take 2 3
submit 1 2 16 333
look 1 3 4
push 1 2 5
commit 1
look 3 1 4
push 3 2 5
take 3 1
ship 1 3
submit 1 1 20 97
elect 3
take 2 1
look 3 2 5
look 3 2 6
submit 1 2 23 2147483648
take 3 1
submit 1 2 6 -148
submit 1 13 17 -348
ship 1 3
elect 1
push 2 3 4
ship 1 3
push 2 1 6
push 3 2 5
look 3 1 5
push 2 3 5
push 2 3 6
take 3 1
look 1 3 4
commit 1
push 1 3 4
elect 3
push 1 3 6
ship 1 2
look 1 3 4
take 2 1
submit 1 15 3 648
commit 1
look 2 1 5
look 3 1 6
take 3 1
push 3 1 5
commit 3
ship 1 3
look 3 2 7
take 3 1
look 3 2 6
look 2 3 5
ship 2 2
ship 1 2
look 3 1 4
look 1 3 4
commit 3
commit 1
submit 1 2 16 -558
commit 3
push 3 1 5
push 1 3 4
push 2 3 6
look 3 2 4
look 1 2 6
commit 1
push 2 1 6
ship 1 3
ship 2 2
push 1 3 5
push 3 1 4
look 1 3 4
commit 1
commit 1
submit 1 14 15 217
push 2 3 4
ship 1 3
look 1 3 5
commit 1
take 2 1
push 2 1 4
push 3 1 6
look 1 2 6
commit 1
look 3 1 5
push 2 3 5
commit 1
push 3 1 4
look 1 2 4
look 3 2 5
push 1 3 5
ship 1 2
push 1 2 6
look 3 2 4
look 2 1 6
push 1 2 5
push 2 1 5
look 2 1 5
push 3 2 6
take 3 1
take 3 2
ship 1 3
push 1 2 4
commit 1
push 1 3 5
ship 1 2
look 1 2 5
look 1 3 5
push 1 2 4
push 2 1 4
push 2 1 6
take 3 1
ship 1 3
push 3 1 6
look 3 2 5
push 2 3 5
push 3 2 6
look 3 1 4
ship 1 2
push 2 1 4
look 2 3 5
take 2 0
look 2 3 5
ship 1 2
look 1 3 4
push 3 2 5
look 1 2 6
push 1 2 4
push 1 3 6
look 3 1 5
commit 1
look 3 2 5
push 2 1 6
take 2 1
take 3 1
push 2 1 6
look 1 2 4
ship 1 3
push 1 3 6
look 2 1 4
take 2 1
push 1 2 5
ship 1 2
commit 4
push 1 3 6
push 3 1 5
take 3 1
look 2 3 5
look 1 3 5
look 3 1 5
commit 2
push 2 1 4
push 1 3 6
look 3 1 6
push 2 1 4
push 1 3 5
ship 2 3
push 1 3 6
look 3 2 6
ship 1 2
look 1 3 6
push 1 3 3
look 3 1 5
commit 3
ship 1 2
look 2 1 5
look 1 3 6
push 3 2 6
push 2 3 5
commit 3
submit 1 14 18 -874
push 3 2 5
take 2 1
look 3 1 6
commit 3
take 2 1
look 1 2 6
push 3 2 4
look 1 2 4
ship 2 3
commit 3
look 1 2 4
look 2 1 7
push 3 2 4
ship 3 2
ship 1 2
take 3 1
push 1 2 5
look 2 1 5
look 3 2 5
push 1 2 5
look 1 2 6
take 2 1
look 2 1 4
look 2 3 4
push 1 3 5
look 2 3 5
commit 1
push 1 2 4
push 2 1 4
look 2 3 4
commit 3
push 1 2 6
commit 3
commit 3
look 2 1 6
push 2 1 5
look 2 1 4
look 2 1 4
push 2 3 4
look 3 1 6
push 1 2 4
look 3 1 5
look 1 2 6
take 3 1
commit 3
look 1 2 5
look 3 1 6
look 1 2 4
look 2 1 5
submit 0 99 16 -14
push 2 3 6
look 2 1 4
commit 3
look 1 3 5
push 3 1 4
look 3 2 4
take 2 1
push 3 2 4
take 2 1
look 1 3 4
look 3 1 6
commit 1
push 1 2 6
commit 1
commit 1
push 2 3 4
look 1 2 4
take 1 2
commit 1
push 1 3 5
commit 1
look 3 2 4
push 1 3 6
look 1 3 6
push 3 2 4
push 1 3 5
push 2 3 4
push 2 1 4
look 2 1 5
push 1 3 6
look 3 2 6
push 2 1 4
look 2 3 4
look 2 3 4
commit 3
commit 1
push 3 2 6
push 2 1 5
look 3 1 6
commit 3
look 1 3 7
commit 3
look 2 3 6
take 3 1
look 3 2 4
push 3 1 5
push 1 2 6
commit 3
commit 3
look 1 3 5
push 1 2 6
look 2 1 6
timeout 3
commit 3
push 2 1 5
look 3 1 6
push 2 1 6
push 3 1 6
push 3 1 4
push 1 3 4
push 2 3 6
timeout 3
look 1 2 6
push 2 1 4
push 2 1 6
look 1 3 4
push 3 1 4
look 1 2 4
look 3 2 6
push 1 2 4
push 2 3 5
look 1 2 6
look 2 1 4
look 1 3 6
push 1 3 5
look 1 2 5
look 2 1 6
commit 2
commit 3
push 2 1 6
look 3 1 5
look 1 3 4
look 2 3 6
look 2 1 6
look 3 2 5
look 1 2 6
push 3 1 4
look 3 1 5
push 2 3 6
push 2 1 4
push 2 3 4
look 2 1 7
push 1 3 5
push 2 1 6
look 3 2 4
push 2 3 5
look 1 2 4
look 1 2 4
look 1 2 5
ship 1 2
look 3 2 5
look 2 3 6
look 1 2 6
",
    prints: "ok 0 1
ok
ok
ok
ok
ok
ok
ok
ok
ok 2
ok
ok
ok
ok
ok
ok
ok
ok
no 5
ok
ok
ok 0
ok
no 5
ok 2
no 1
no 6
ok
ok
ok
ok
ok
ok
ok
ok
ok
ok
ok
ok 0
ok
no 5
no 6
ok
ok 0 2
ok
ok
ok 0 1
ok
ok
no 6
ok 1
ok
ok
ok 0
ok
ok
ok
ok
ok
ok 1
ok
ok 0 1 1
ok
ok
ok
ok
ok
ok
no 5
no 6
ok 2
ok
ok 0 1 2
no 6
no 6
ok
ok
no 6
no 6
ok 1
ok
no 6
no 6
ok
no 5
no 5
ok
ok
ok
ok
ok
ok
ok 0 1 3
ok
ok 1
ok
ok
ok 1
ok 0
ok
ok 1
ok
ok
ok
ok
ok 0 1 4
ok
ok
ok 0
no 5
ok
ok 1
ok
ok
ok
ok 1
ok
ok
ok 0 1 5
ok
ok
ok 1
ok
ok
no 5
ok 0
ok 1
ok
ok 1
ok 1
ok 1
ok
ok
ok 0
ok
ok 1
ok 0 1 6
ok 1
ok
ok
ok
ok 0
ok 0
ok 1
no 6
ok
ok
ok
ok 1
ok 1
ok
ok
ok 0
ok
ok
ok
ok 0
ok 1
ok 0 1 7
no 3
ok
ok 1
ok 0 1 8
ok 1
ok
ok
ok
ok
ok
ok 0 1 9
ok
ok 1
ok
ok
ok
ok
ok
no 1
ok
ok
no 6
ok 0 1 10
ok
ok
ok 1
ok
ok
ok 1
ok 1
ok 0 1 11
no 5
ok 0
ok
no 6
no 3
ok 1
ok 0 1 12
ok 0 1 13
ok 1
no 5
ok
ok 1
ok
ok
no 6
ok
ok
ok 1
ok
ok 1
ok
no 5
ok
ok 1
ok
ok 0
ok 0 1 14
ok 1
ok
ok
ok 1
ok
ok 0
ok 1
no 3
ok 1
ok
ok
no 1
ok 1
ok
ok
ok 1
ok 1
ok 0 1 15
ok 1
ok
ok
ok
ok
ok
ok 1
ok
ok 1
no 1
ok
ok
ok
ok 1
ok 1
ok 0 1 16
ok
ok 1
ok
ok 1
ok 0
ok
ok
ok
ok 1
ok
ok
ok 1
ok
ok
ok
ok
ok 1
ok
ok
ok
ok
ok
ok
ok
ok 1
no 6
ok 1
ok
ok 1
ok
ok 1
ok
ok
ok
ok
ok
ok 1
ok 1
ok
ok
ok
ok
ok
ok 1
ok
ok
no 1
ok
ok 1
ok
ok
ok
ok
ok
ok
no 6
ok
ok
ok 0
ok 1
ok
ok
ok 1
ok
ok
ok 0
ok
ok 1
no 1
ok
ok
ok 1
ok
ok
ok
no 5
ok
ok
ok
ok
ok
no 5
ok
ok
ok 1
ok
no 3
ok
ok 1
ok 1
ok
ok
ok
ok
ok 1
no 10
ok
ok 0
ok
ok 1
ok 0
ok
ok
ok
no 5
ok 1
ok
no 3
ok
no 5
no 6
ok 1
ok
ok
ok
ok
ok
ok 0
ok
ok
ok
ok
no 6
ok
ok
ok
ok 1
ok
ok 1
ok 1
ok
ok
ok
ok
ok
ok
ok
ok
ok
no 6
ok 1
ok
ok
ok
ok
no 1
ok
ok
ok 1
no 6
ok
ok
ok 0
ok
ok 0
ok
ok
ok 1
ok
ok 1
ok 1
ok
ok
no 6
ok 1
ok
ok 1
ok
ok
no 6
ok
ok
ok
ok
no 6
ok
ok
ok
ok
ok
no 6
no 6
ok
ok
ok
ok 1
no 3
ok 1
ok
no 6
ok
ok
ok
ok 1
ok 1
ok
ok
ok
ok 0 3
no 5
ok
ok
ok
ok
ok
ok
ok
ok 1 3
ok
ok
ok
ok
ok
ok
ok
ok
ok
ok
ok
ok
ok
ok
ok
no 5
no 5
ok
ok
ok
ok
ok
ok
ok
ok
ok
ok
ok
ok
no 3
ok
ok
ok
ok
ok
ok
ok
no 6
ok
ok
ok
card 1 0.1.1 0.1.2 0.1.3 0.1.4 0.1.5 0.1.6 0.1.7 0.1.8 0.1.9 0.1.10 0.1.11 0.1.12 0.1.13 0.1.14 0.1.15 0.1.16
card 2
card 3 0.1.1 0.1.2 0.1.3 0.1.4 0.1.5 0.1.6 0.1.7 0.1.8 0.1.9 0.1.10 0.1.11 0.1.12 0.1.13 0.1.14 0.1.15
",
};
