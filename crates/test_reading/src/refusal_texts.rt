//! Small texts, each with the place and reason of its refusal, which an independent model gave too.

/// Each line has `LINE:COLUMN: REASON`, or `taken`, and behind ` | ` the text.
pub static TEXTS: &str = r#"
1:8: 3 | int x; /*
1:9: 5 | int x = 08;
1:9: 4 | int x = '';
1:9: 4 | int x = 'ab';
1:22: 4 | int f(void) { printf("a); }
1:9: 5 | int x = 1.5;
1:7: 2 | int x @ 1;
1:1: 6 | #define A 1
1:8: 2 | int x; #include <a.h>
taken | #include <stdio.h>
1:9: 5 | int x = 0xFFFFFFFFFFFFFFFFF;
1:9: 4 | int x = '\400';
taken | int x = '\377';
1:6: 2 | // a \
1:1: 3 | /* a *\
taken | int x = 4294967296;
1:9: 5 | int x = 18446744073709551616u;
1:6: 2 | int a$;
1:9: 5 | int x = 0x;
1:9: 5 | int x = 1lul;
1:29: 10 | int f(int a, int b) { a + b = 1; }
1:1: 10 | float x;
1:28: 10 | int main(void) { L: goto L;
1:13: 10 | int f(int a,);
1:13: 10 | int x = ((a)[1]);
1:18: 10 | int f(void) { ++(1); }
1:21: 10 | int f(void) { f("a" 1); }
1:22: 10 | int f(void) { if (1) else ; }
1:18: 10 | int f(void) { L: }
1:18: 10 | int f(void) { L: int x; }
1:1: 10 | struct s { int x; };
1:5: 10 | int *p;
1:1: 10 | typedef int t;
1:22: 10 | int f(void) { return sizeof(int); }
1:9: 10 | int a[2][2];
1:7: 10 | int f(a) int a; { }
1:1: 10 | extern int x;
taken | int x, y = 2;
1:36: 10 | int f(void) { switch (1) { case 1: } }
1:1: 10 | short x;
taken | long int x;
taken | unsigned char c; signed s; unsigned long int u;
1:6: 10 | long long x;
1:9: 10 | int x = "a";
1:20: 10 | int f(void) { goto *p; }
1:1: 10 | double f(void);
taken | 
1:1: 10 | ;
1:20: 10 | int f(void) { ((f))(); return 0; }
1:9: 10 | int x = ;
1:30: 10 | int f(void) { do ; while (0) }
1:22: 20 | int f(void) { return x; }
taken | int x = 1; int f(void) { return x; }
1:26: 20 | int f(void) { { int x; } x = 1; return 0; }
1:22: 20 | int f(void) { return g(); } int g(void) { return 0; }
1:18: 20 | int f(void) { y: y = 1; goto y; }
1:25: 20 | int f(int a[]) { return b[0]; }
1:54: 20 | int f(void) { for (int i = 0; i < 2; i++) { } return i; }
taken | int f(void) { int x = x; return x; }
1:7: 20 | int a[n];
1:15: 20 | int f(void) { x++; int x; return 0; }
1:22: 20 | int f(void) { if (1) int_(3); return 0; }
1:12: 21 | int x; int x;
1:26: 21 | int f(void) { int a; int a; return 0; }
taken | int f(void) { int a; { int a; } return 0; }
1:18: 21 | int f(int a, int a) { return 0; }
1:20: 21 | int f(int a) { int a; return 0; }
taken | int f(int a) { { int a; } return 0; }
1:5: 21 | int putchar;
taken | int f(void); int f(void); int f(void) { return 0; }
1:31: 21 | int f(void) { return 0; } int f(void) { return 0; }
1:11: 21 | enum { A, A };
1:15: 21 | int A; enum { A };
1:12: 21 | int f; int f(void);
1:5: 21 | int exit(int n);
taken | int f(void) { int putchar = 1; return putchar; }
taken | int f(void) { for (int i = 0; i < 2; i++) { int i; } return 0; }
1:18: 21 | int f(int a, int a);
1:29: 22 | int x; int f(void) { return x(); }
1:35: 22 | int g(void); int f(void) { return g; }
1:29: 22 | int x; int f(void) { return x[0]; }
1:25: 22 | int a[3]; int f(void) { a = 1; return 0; }
1:27: 22 | enum { A }; int f(void) { A = 1; return 0; }
1:32: 22 | int a[3]; int f(void) { return a + 1; }
1:41: 22 | int g(int a[]); int f(int x) { return g(x); }
1:61: 22 | int g(int x) { return x; } int a[3]; int f(void) { return g(a); }
1:64: 22 | int g(int a[]) { return 0; } char a[3]; int f(void) { return g(a); }
taken | int g(int a[]) { return a[0]; } int a[3]; int f(void) { return g(a); }
1:25: 22 | int a[3]; int f(void) { a; return 0; }
1:28: 22 | int g(void); int f(void) { g++; return 0; }
taken | int a[2]; int g(int b[]) { return 0; } int f(void) { return g((a)); }
1:25: 22 | int a[2]; int f(void) { a++; return 0; }
1:22: 22 | int f(void) { return putchar; }
1:22: 22 | int f(void) { return printf + 1; }
1:49: 23 | int g(int x) { return x; } int f(void) { return g(); }
1:48: 23 | int g(void) { return 0; } int f(void) { return g(1); }
1:56: 23 | int g(int a, int b) { return a; } int f(void) { return g(1, 2, 3); }
1:15: 23 | int f(void) { putchar(); return 0; }
1:22: 23 | int f(void) { return getchar(1); }
taken | int g() { return 0; } int f(void) { return g(); }
1:15: 23 | int f(void) { exit(); }
1:15: 23 | int f(void) { abort(0); }
1:39: 24 | void g(void) { } int f(void) { return g(); }
taken | void g(void) { } int f(void) { g(); return 0; }
taken | void g(void) { } int f(void) { return (g(), 1); }
1:39: 24 | void g(void) { } int f(void) { return (1, g()); }
1:36: 24 | void g(void) { } int f(void) { if (g()) return 1; return 0; }
taken | void g(void) { } int f(void) { (void)g(); return 0; }
taken | void g(void) { } int f(void) { for (g(); ; g()) break; return 0; }
1:40: 24 | void g(void) { } int f(void) { return -(g()); }
1:22: 24 | int f(void) { return (void)1; }
1:37: 24 | void g(void) { } int f(int x) { x ? g() : g(); return 0; }
1:40: 24 | void g(void) { } int f(void) { putchar(g()); return 0; }
taken | void g(void) { } int f(void) { g(), g(); return 0; }
1:51: 24 | void g(void) { } int a[2]; int f(void) { return a[g()]; }
1:16: 25 | void f(void) { return 1; }
1:15: 25 | int f(void) { return; }
taken | void f(void) { return; }
taken | int f(void) { return 1; }
1:24: 25 | void f(int x) { if (x) return x; }
1:18: 25 | int f(int x) { { return; } return x; }
taken | int f(void) { }
1:33: 25 | void g(void) { } void f(void) { return g(); }
1:32: 26 | int f(void) { const int x = 1; x = 2; return 0; }
1:28: 26 | const int x; int f(void) { x++; return 0; }
1:31: 26 | const int a[2]; int f(void) { a[0] = 1; return 0; }
taken | int f(const int x) { return x + 1; }
1:22: 26 | int f(const int x) { x += 1; return 0; }
1:69: 26 | int g(int a[]) { return 0; } const int a[2]; int f(void) { return g(a); }
taken | int g(const int a[]) { return 0; } const int a[2]; int f(void) { return g(a); }
taken | int g(const int a[]) { return 0; } int a[2]; int f(void) { return g(a); }
1:27: 26 | int f(const char b[]) { --b[1]; return 0; }
taken | int f(void) { const int x = 1; return x; }
1:15: 27 | int f(void) { break; }
1:22: 27 | int f(void) { if (1) break; return 0; }
taken | int f(void) { while (1) break; return 0; }
taken | int f(int x) { switch (x) { case 1: break; } return 0; }
1:17: 27 | int f(void) { { break; } }
1:29: 27 | int f(void) { while (1) { } break; return 0; }
taken | int f(void) { do { if (1) break; } while (1); return 0; }
1:15: 28 | int f(void) { continue; }
1:37: 28 | int f(int x) { switch (x) { case 1: continue; } return 0; }
taken | int f(int x) { while (x) switch (x) { case 1: continue; } return 0; }
taken | int f(void) { for (;;) continue; }
1:24: 28 | int f(void) { if (1) { continue; } return 0; }
1:33: 28 | int f(void) { do { } while (0); continue; return 0; }
1:15: 29 | int f(void) { case 1: return 0; }
1:15: 29 | int f(void) { default: return 0; }
1:29: 29 | int f(int x) { switch (x) { x = 1; case 1: break; } return 0; }
1:29: 29 | int f(int x) { switch (x) { int y; case 1: break; } return 0; }
taken | int f(int x) { switch (x) { case 1: x = 2; x = 3; } return 0; }
1:27: 29 | int f(int x) { switch (x) x = 1; return 0; }
taken | int f(int x) { switch (x) case 1: x = 1; return 0; }
taken | int f(int x) { switch (x) { ; case 1: ; } return 0; }
1:29: 29 | int f(int x) { switch (x) { { case 1: x = 2; } } return 0; }
1:29: 29 | int f(int x) { switch (x) { L: ; case 1: goto L; } return 0; }
1:28: 29 | int f(int x) { while (x) { case 2: x--; } return 0; }
taken | int f(int x) { switch (x) { } return 0; }
taken | int f(int x) { switch (x) ; return 0; }
1:37: 30 | int f(int x) { switch (x) { case 1: case 1: break; } return 0; }
taken | int f(int x) { switch (x) { case 1: case 2: break; } return 0; }
1:44: 30 | int f(int x) { switch (x) { case 2: break; case 1 + 1: break; } return 0; }
1:50: 30 | int f(unsigned x) { switch (x) { case -1: break; case 4294967295: break; } return 0; }
taken | int f(long x) { switch (x) { case -1: break; case 4294967295: break; } return 0; }
1:42: 30 | int f(char x) { switch (x) { case 'a': { case 97: break; } } return 0; }
taken | int f(int x) { switch (x) { case 1: switch (x) { case 1: break; } } return 0; }
1:63: 30 | enum { A, B = 0 }; int f(int x) { switch (x) { case A: break; case B: break; } return 0; }
1:38: 31 | int f(int x) { switch (x) { default: default: break; } return 0; }
taken | int f(int x) { switch (x) { default: switch (x) { default: break; } } return 0; }
1:40: 31 | int f(int x) { switch (x) { default: { default: break; } } return 0; }
taken | int f(int x) { switch (x) { case 1: default: break; } return 0; }
1:53: 31 | int f(int x) { switch (x) { default: break; case 1: default: break; } return 0; }
1:62: 31 | int f(int x) { switch (x) { default: break; case 2: if (x) { default: ; } } return 0; }
1:18: 32 | int f(void) { L: L: goto L; }
1:22: 32 | int f(void) { L: ; { L: ; } goto L; }
taken | int f(void) { L: ; M: ; goto L; }
taken | int f(void) { L: ; return 0; } int g(void) { L: ; return 0; }
1:42: 32 | int f(int x) { switch (x) { case 1: A: ; A: ; } return 0; }
taken | int f(int L) { L: return L; }
1:24: 32 | int f(void) { a: b: c: b: return 0; }
1:20: 33 | int f(void) { goto L; }
taken | int f(void) { goto L; L: ; return 0; }
1:51: 33 | int f(void) { L: ; return 0; } int g(void) { goto L; return 0; }
1:21: 33 | int f(int L) { goto L; return 0; }
1:22: 33 | int f(void) { { goto out; } ou: return 0; }
taken | int f(void) { goto f; f: return 0; }
1:9: 20 | int x = f();
1:16: 34 | int y; int x = y;
1:9: 34 | int x = 1 / 0;
1:9: 34 | int x = 2147483647 + 1;
taken | int x = 1 ? 2 : 1 / 0;
taken | int x = 0 && 1 / 0;
1:12: 34 | enum { A = 2147483648 };
1:24: 34 | enum { A = 2147483647, B };
taken | int a[1 + 1];
1:22: 34 | int f(int n) { int a[n]; return 0; }
1:34: 34 | int f(int x) { switch (x) { case x: break; } return 0; }
taken | int x = (char)300;
1:9: 34 | int x = (1, 2);
1:9: 20 | int x = sizeof_;
taken | enum { A = 3 }; int a[A];
1:9: 34 | int x = 1 << 31;
taken | int x = 1u << 31;
1:20: 34 | int f(int n, int a[n]) { return 0; }
1:9: 24 | int x = (void)1;
1:9: 34 | int x = -(-2147483647 - 1);
1:26: 34 | enum { A = -1 }; int x = A << 1;
1:5: 35 | int a[0];
1:5: 35 | int a[65537];
taken | int a[65536];
1:5: 35 | int a[];
taken | int a[] = {1, 2};
1:5: 35 | int a[2] = {1, 2, 3};
taken | int a[2] = {1, 2,};
1:5: 35 | int x = {1};
1:5: 35 | int a[2] = 1;
1:19: 35 | int f(void) { int a[1025] = {1}; return 0; }
taken | int f(void) { int a[1024] = {1}; return 0; }
taken | int f(void) { int a[1025]; return 0; }
1:5: 35 | int a[-1];
1:19: 35 | int f(void) { int x = {0}; return 0; }
taken | int f(int a[0]) { return 0; }
taken | int a[3] = {1};
1:5: 36 | int main(int x) { return 0; }
1:6: 36 | void main(void) { }
1:12: 36 | static int main(void) { return 0; }
taken | int main() { return 0; }
1:5: 36 | int main;
1:8: 36 | enum { main };
taken | int main(void);
1:6: 36 | long main(void) { return 0; }
taken | int f(void) { int main = 1; return main; }
1:19: 37 | int f(void); void f(void);
1:19: 37 | int f(int x); int f(char x) { return 0; }
taken | int f(int x); int f(int y) { return y; }
1:25: 37 | int f(const int x); int f(int x) { return x; }
1:19: 37 | int f(int x); int f(void) { return 0; }
1:21: 37 | int f(int a[]); int f(int x) { return x; }
taken | static int f(void); int f(void) { return 0; }
taken | int f(int a[2]); int f(int a[3]) { return 0; }
1:23: 37 | unsigned f(void); int f(void) { return 0; }
1:50: 38 | int g(int a[]); int a[2]; int f(void) { return g(a); }
taken | int g(int a[]); int a[2]; int f(void) { return g(a); } int g(int a[]) { return 0; }
1:68: 38 | int g(int x, const char b[]); char b[2]; int f(void) { return g(1, b); }
1:43: 38 | int g(int a[]); int f(int a[]) { return g(a); }
taken | int g(int x); int a[2]; int f(void) { return g(a[0]); }
1:40: 38 | void g(long a[]); void f(long a[]) { g((a)); }
taken | int main(void) { goto L; goto L; goto L; goto L; goto L; goto L; goto L; goto L; goto L; goto L; goto L; goto L; goto L; goto L; goto L; goto L; goto L; goto L; goto L; goto L; goto L; goto L; goto L; goto L; goto L; goto L; goto L; goto L; goto L; goto L; goto L; goto L; goto L; goto L; goto L; goto L; goto L; goto L; goto L; goto L; goto L; goto L; goto L; goto L; goto L; goto L; goto L; goto L; goto L; goto L; goto L; goto L; goto L; goto L; goto L; goto L; goto L; goto L; goto L; goto L; goto L; goto L; goto L; goto L; goto L; goto L; goto L; goto L; goto L; goto L; goto L; goto L; goto L; goto L; goto L; goto L; goto L; goto L; goto L; goto L; goto L; goto L; goto L; goto L; goto L; goto L; goto L; goto L; goto L; goto L; goto L; goto L; goto L; goto L; goto L; goto L; goto L; goto L; goto L; goto L; goto L; goto L; goto L; goto L; goto L; goto L; goto L; goto L; goto L; goto L; goto L; goto L; goto L; goto L; goto L; goto L; goto L; goto L; goto L; goto L; goto L; goto L; goto L; goto L; goto L; goto L; goto L; goto L; goto L; goto L; goto L; goto L; goto L; L: ; }
1:5: 39 | int main(void) { if (1) goto L; if (1) goto L; if (1) goto L; if (1) goto L; if (1) goto L; if (1) goto L; if (1) goto L; if (1) goto L; if (1) goto L; if (1) goto L; if (1) goto L; if (1) goto L; if (1) goto L; if (1) goto L; if (1) goto L; if (1) goto L; if (1) goto L; if (1) goto L; if (1) goto L; if (1) goto L; if (1) goto L; if (1) goto L; if (1) goto L; if (1) goto L; if (1) goto L; if (1) goto L; if (1) goto L; if (1) goto L; if (1) goto L; if (1) goto L; if (1) goto L; if (1) goto L; if (1) goto L; if (1) goto L; if (1) goto L; if (1) goto L; if (1) goto L; if (1) goto L; if (1) goto L; if (1) goto L; if (1) goto L; if (1) goto L; if (1) goto L; if (1) goto L; if (1) goto L; if (1) goto L; if (1) goto L; if (1) goto L; if (1) goto L; if (1) goto L; if (1) goto L; if (1) goto L; if (1) goto L; if (1) goto L; if (1) goto L; if (1) goto L; if (1) goto L; if (1) goto L; if (1) goto L; if (1) goto L; if (1) goto L; if (1) goto L; if (1) goto L; if (1) goto L; if (1) goto L; if (1) goto L; if (1) goto L; if (1) goto L; if (1) goto L; if (1) goto L; if (1) goto L; if (1) goto L; if (1) goto L; if (1) goto L; if (1) goto L; if (1) goto L; if (1) goto L; if (1) goto L; if (1) goto L; if (1) goto L; if (1) goto L; if (1) goto L; if (1) goto L; if (1) goto L; if (1) goto L; if (1) goto L; if (1) goto L; if (1) goto L; if (1) goto L; if (1) goto L; if (1) goto L; if (1) goto L; if (1) goto L; if (1) goto L; if (1) goto L; if (1) goto L; if (1) goto L; if (1) goto L; if (1) goto L; if (1) goto L; if (1) goto L; if (1) goto L; if (1) goto L; if (1) goto L; if (1) goto L; if (1) goto L; if (1) goto L; if (1) goto L; if (1) goto L; if (1) goto L; if (1) goto L; if (1) goto L; if (1) goto L; if (1) goto L; if (1) goto L; if (1) goto L; if (1) goto L; if (1) goto L; if (1) goto L; if (1) goto L; if (1) goto L; if (1) goto L; if (1) goto L; if (1) goto L; if (1) goto L; if (1) goto L; if (1) goto L; if (1) goto L; if (1) goto L; if (1) goto L; if (1) goto L; if (1) goto L; if (1) goto L; L: ; }
1:5: 39 | int main(void) { goto L; goto L; goto L; goto L; goto L; goto L; goto L; goto L; goto L; goto L; goto L; goto L; goto L; goto L; goto L; goto L; goto L; goto L; goto L; goto L; goto L; goto L; goto L; goto L; goto L; goto L; goto L; goto L; goto L; goto L; goto L; goto L; goto L; goto L; goto L; goto L; goto L; goto L; goto L; goto L; goto L; goto L; goto L; goto L; goto L; goto L; goto L; goto L; goto L; goto L; goto L; goto L; goto L; goto L; goto L; goto L; goto L; goto L; goto L; goto L; goto L; goto L; goto L; goto L; goto L; goto L; goto L; goto L; goto L; goto L; goto L; goto L; goto L; goto L; goto L; goto L; goto L; goto L; goto L; goto L; goto L; goto L; goto L; goto L; goto L; goto L; goto L; goto L; goto L; goto L; goto L; goto L; goto L; goto L; goto L; goto L; goto L; goto L; goto L; goto L; goto L; goto L; goto L; goto L; goto L; goto L; goto L; goto L; goto L; goto L; goto L; goto L; goto L; goto L; goto L; goto L; goto L; goto L; goto L; goto L; goto L; goto L; goto L; goto L; goto L; goto L; goto L; goto L; goto L; goto L; goto L; goto L; goto L; goto L; L: ; }
taken | int main(void) { goto lxxxxxxxxxxxxxxxxxxxxxxxxxxxxxxxxxxxxxxxxxxxxxxxxxxxxxxxxxxxxxx; lxxxxxxxxxxxxxxxxxxxxxxxxxxxxxxxxxxxxxxxxxxxxxxxxxxxxxxxxxxxxxx: ; }
1:5: 39 | int main(void) { goto lxxxxxxxxxxxxxxxxxxxxxxxxxxxxxxxxxxxxxxxxxxxxxxxxxxxxxxxxxxxxxxx; lxxxxxxxxxxxxxxxxxxxxxxxxxxxxxxxxxxxxxxxxxxxxxxxxxxxxxxxxxxxxxxx: ; }
taken | int main(void) { lxxxxxxxxxxxxxxxxxxxxxxxxxxxxxxxxxxxxxxxxxxxxxxxxxxxxxxxxxxxxxxx: ; }
1:5: 39 | int main(void) { { int lxxxxxxxxxxxxxxxxxxxxxxxxxxxxxxxxxxxxxxxxxxxxxxxxxxxxxxxxxxxxxxx; } L: goto L; }
taken | int f(int lxxxxxxxxxxxxxxxxxxxxxxxxxxxxxxxxxxxxxxxxxxxxxxxxxxxxxxxxxxxxxxx) { L: goto L; }
1:5: 39 | int main(void) { goto a; a: ; b: ; lxxxxxxxxxxxxxxxxxxxxxxxxxxxxxxxxxxxxxxxxxxxxxxxxxxxxxxxxxxxxxxx: ; }
1:15: 40 | int f(void) { printf(1); return 0; }
1:15: 40 | int f(void) { printf("%s", 1); return 0; }
1:15: 40 | int f(void) { printf("%d"); return 0; }
taken | int f(void) { printf("%d", 1); return 0; }
1:28: 40 | int f(void) { printf("%d", 1L); return 0; }
taken | int f(void) { printf("%ld", 1L); return 0; }
1:29: 40 | int f(void) { printf("%ld", 1); return 0; }
taken | int f(void) { printf("%%"); return 0; }
taken | int f(void) { printf("%c%x%u", 'a', 1u, 2); return 0; }
1:15: 40 | int f(void) { printf("%"); return 0; }
1:23: 40 | int f(void) { putchar("a"); return 0; }
1:15: 40 | int f(void) { printf("a", "b"); return 0; }
taken | int f(void) { printf("a" "b%d", 3); return 0; }
1:15: 40 | int f(void) { printf(); return 0; }
taken | int f(void) { printf("%lu", 1ul); return 0; }
1:22: 40 | int f(void) { return printf("%d %d", 1); }
1:7: 43 | int f(int) { return 0; }
taken | int f(int);
1:14: 43 | int f(int a, char) { return 0; }
taken | int f(int a, char b) { return 0; }
1:7: 43 | int f(int[]) { return 0; }
taken | int f(const int[]);
1:8: 43 | void f(long, long) { }
1:19: 22 | int a[3]; int b = a;
1:19: 34 | int a[3]; int b = (a);
1:23: 22 | int a[3]; int b[1] = {a};
1:17: 22 | int a[3]; int b[a];
1:22: 22 | int a[3]; enum { E = a };
1:23: 22 | int a[3]; int f(int x[a]);
1:45: 22 | int a[3]; void f(int x) { switch (x) { case a: ; } }
1:23: 24 | void f(void); int b = f();
1:9: 24 | int b = (void)1;
1:49: 24 | void g(void); void f(int x) { switch (x) { case g(): ; } }
1:39: 22 | int a[3]; void f(void) { printf("%d", (a)); }
1:30: 32 | int main(void) { goto L; L: ;L: ;L: ;L: ;L: ;L: ;L: ;L: ;L: ;L: ;L: ;L: ;L: ;L: ;L: ;L: ;L: ;L: ;L: ;L: ;L: ;L: ;L: ;L: ;L: ;L: ;L: ;L: ;L: ;L: ;L: ;L: ;L: ;L: ;L: ;L: ;L: ;L: ;L: ;L: ;L: ;L: ;L: ;L: ;L: ;L: ;L: ;L: ;L: ;L: ;L: ;L: ;L: ;L: ;L: ;L: ;L: ;L: ;L: ;L: ;L: ;L: ;L: ;L: ;L: ;L: ;L: ; }
1:49: 31 | void f(void) { switch (1) { case 0: { default: ;default: ;default: ;default: ;default: ;default: ;default: ;default: ;default: ;default: ;default: ;default: ;default: ;default: ;default: ;default: ;default: ;default: ;default: ;default: ;default: ;default: ;default: ;default: ;default: ;default: ;default: ;default: ;default: ;default: ;default: ;default: ;default: ;default: ;default: ;default: ;default: ;default: ;default: ;default: ;default: ;default: ;default: ;default: ;default: ;default: ;default: ;default: ;default: ;default: ;default: ;default: ;default: ;default: ;default: ;default: ;default: ;default: ;default: ;default: ;default: ;default: ;default: ;default: ;default: ;default: ; } } }
1:6: 39 | void f(void) { switch (1) { goto L; goto L; goto L; goto L; goto L; goto L; goto L; goto L; goto L; goto L; goto L; goto L; goto L; goto L; goto L; goto L; goto L; goto L; goto L; goto L; goto L; goto L; goto L; goto L; goto L; goto L; goto L; goto L; goto L; goto L; goto L; goto L; goto L; goto L; goto L; goto L; goto L; goto L; goto L; goto L; goto L; goto L; goto L; goto L; goto L; goto L; goto L; goto L; goto L; goto L; goto L; goto L; goto L; goto L; goto L; goto L; goto L; goto L; goto L; goto L; goto L; goto L; goto L; goto L; goto L; goto L; goto L; goto L; goto L; goto L; goto L; goto L; goto L; goto L; goto L; goto L; goto L; goto L; goto L; goto L; goto L; goto L; goto L; goto L; goto L; goto L; goto L; goto L; goto L; goto L; goto L; goto L; goto L; goto L; goto L; goto L; goto L; goto L; goto L; goto L; goto L; goto L; goto L; goto L; goto L; goto L; goto L; goto L; goto L; goto L; goto L; goto L; goto L; goto L; goto L; goto L; goto L; goto L; goto L; goto L; goto L; goto L; goto L; goto L; goto L; goto L; goto L; goto L; goto L; goto L; goto L; goto L; goto L; } L: ; }
1:29: 29 | void f(void) { switch (1) { goto L; goto L; goto L; goto L; goto L; goto L; goto L; goto L; goto L; goto L; goto L; goto L; goto L; goto L; goto L; goto L; goto L; goto L; goto L; goto L; goto L; goto L; goto L; goto L; goto L; goto L; goto L; goto L; goto L; goto L; goto L; goto L; goto L; goto L; goto L; goto L; goto L; goto L; goto L; goto L; goto L; goto L; goto L; goto L; goto L; goto L; goto L; goto L; goto L; goto L; goto L; goto L; goto L; goto L; goto L; goto L; goto L; goto L; goto L; goto L; goto L; goto L; goto L; goto L; goto L; goto L; goto L; goto L; goto L; goto L; goto L; goto L; goto L; goto L; goto L; goto L; goto L; goto L; goto L; goto L; goto L; goto L; goto L; goto L; goto L; goto L; goto L; goto L; goto L; goto L; goto L; goto L; goto L; goto L; goto L; goto L; goto L; goto L; goto L; goto L; goto L; goto L; goto L; goto L; goto L; goto L; goto L; goto L; goto L; goto L; goto L; goto L; goto L; goto L; goto L; goto L; goto L; goto L; goto L; goto L; goto L; goto L; goto L; goto L; goto L; goto L; goto L; goto L; goto L; goto L; goto L; goto L; } L: ; }
1:6: 39 | void f(void) { switch (1) { { case 1: ; } } int axxxxxxxxxxxxxxxxxxxxxxxxxxxxxxxxxxxxxxxxxxxxxxxxxxxxxxxxxxxxxxx; }
1:28: 29 | void f(void) { while (1) { case 1: ; break; break; break; break; break; break; break; break; break; break; break; break; break; break; break; break; break; break; break; break; break; break; break; break; break; break; break; break; break; break; break; break; break; break; break; break; break; break; break; break; break; break; break; break; break; break; break; break; break; break; break; break; break; break; break; break; break; break; break; break; break; break; break; break; break; break; break; break; break; break; break; break; break; break; break; break; break; break; break; break; break; break; break; break; break; break; break; break; break; break; break; break; break; break; break; break; break; break; break; break; break; break; break; break; break; break; break; break; break; break; break; break; break; break; break; break; break; break; break; break; break; break; break; break; break; break; break; break; break; break; break; break; } goto L; L: ; }
1:6: 39 | void f(void) { switch (1) { case 1: { case 1: ;case 1: ;case 1: ;case 1: ;case 1: ;case 1: ;case 1: ;case 1: ;case 1: ;case 1: ;case 1: ;case 1: ;case 1: ;case 1: ;case 1: ;case 1: ;case 1: ;case 1: ;case 1: ;case 1: ;case 1: ;case 1: ;case 1: ;case 1: ;case 1: ;case 1: ;case 1: ;case 1: ;case 1: ;case 1: ;case 1: ;case 1: ;case 1: ;case 1: ;case 1: ;case 1: ;case 1: ;case 1: ;case 1: ;case 1: ;case 1: ;case 1: ;case 1: ;case 1: ;case 1: ;case 1: ;case 1: ;case 1: ;case 1: ;case 1: ;case 1: ;case 1: ;case 1: ;case 1: ;case 1: ;case 1: ;case 1: ;case 1: ;case 1: ;case 1: ;case 1: ;case 1: ;case 1: ;case 1: ;case 1: ;case 1: ; } } }
"#;
